ghost use Rattle.std.specs.Prelude.{◌≡◌, ◌+◌, ℕ, suc, true, Some, List, [], length, slice_get};
ghost use Rattle.sbe_types.specs.declared.schema.Field.{Field};
ghost use Rattle.sbe_types.specs.declared.message.Value.{Value};
ghost use Rattle.sbe_types.specs.Places.{is_const, field_place};
ghost use Rattle.sbe_types.specs.Wire.{wire_bytes};
ghost use Rattle.sbe_wire.specs.Canonical.{block_bytes};
ghost use Rattle.kind_bytes.specs.Members.{followed_by};
ghost use Rattle.typed_writer.specs.Empty.{empty_block};
ghost use Rattle.typed_writer.specs.Steps.{IsWritten};
ghost use Rattle.block_laws.specs.Blocks.{HoldsFirst, Task};
ghost use Rattle.block_laws.specs.Pieces.{Ascend};

/// An empty block holds none of its values yet.
pub fn an_empty_block_holds_none()
    ensures { (task : Task) (front bytes : List ℕ) → Ascend 0 task.fields
        → followed_by front (empty_block task.order task.long task.fields) ≡ Some bytes → HoldsFirst task 0 front bytes }
{}

/// When the next field is set, the block holds one more value.
pub fn a_field_that_is_set_is_held()
    ensures { (task : Task) (front bytes new : List ℕ) (i place : ℕ) (f : Field) (v : Value) → Ascend 0 task.fields → HoldsFirst task i front bytes
        → slice_get task.fields i ≡ Some f → slice_get task.values i ≡ Some v → field_place 0 task.fields i ≡ Some place
        → IsWritten task.order f.kind v (length front + place) bytes new → HoldsFirst task (suc i) front new }
{}

/// A constant is held as it is.
pub fn a_constant_is_held()
    ensures { (task : Task) (front bytes : List ℕ) (i : ℕ) (f : Field) (v : Value) → HoldsFirst task i front bytes
        → slice_get task.fields i ≡ Some f → slice_get task.values i ≡ Some v → is_const f.kind ≡ true
        → wire_bytes task.order f.kind v ≡ Some [] → HoldsFirst task (suc i) front bytes }
{}

/// A block that holds all its values is the canonical one.
pub fn a_full_block_is_canonical()
    ensures { (task : Task) (front bytes : List ℕ) → Ascend 0 task.fields → length task.values ≡ length task.fields
        → HoldsFirst task (length task.fields) front bytes
        → followed_by front (block_bytes task.order task.long task.fields task.values) ≡ Some bytes }
{}
