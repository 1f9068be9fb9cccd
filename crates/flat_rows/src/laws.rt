//! Laws of the values of a block.

ghost use Rattle.std.specs.Prelude.{◌≡◌, ◌≤◌, ℕ, List, length};
ghost use Rattle.sbe_types.specs.declared.message.Value.{Value};
ghost use Rattle.sbe_types.specs.declared.schema.Field.{Field};
ghost use Rattle.sbe_wire.specs.declared.mode.Mode.{Mode};
ghost use Rattle.sbe_wire.specs.Lays.{BlockLays};
ghost use Rattle.sbe_wire.specs.Placed.{ArePlaced};
ghost use Rattle.sbe_wire.specs.Versions.{floor};
ghost use Rattle.flat_rows.specs.declared.rows.FlatRows.{FlatRows};
ghost use Rattle.flat_rows.specs.Scalars.{scalars_of};
ghost use Rattle.flat_rows.specs.BlockChecks.{AllAlive, ScalarsShow};
ghost use Rattle.flat_rows.specs.Tables.{stands_for, IsTable, RowsFit};

/// If the bytes of each value are valid and every field exists at the version, the bytes are a block of the fields.
pub fn values_that_show_are_a_block()
    ensures { (mode : Mode) (fields : List Field) (block : List ℕ) → ArePlaced 0 fields → AllAlive mode.version fields
        → floor mode.version fields ≤ length block → ScalarsShow mode.order mode.known (scalars_of fields) block
        → (vs : List Value) × BlockLays mode fields vs block }
{}

/// If every field exists at the version, the values of their table are inside each block that reaches the floor.
pub fn values_lie_in_the_block()
    ensures { (table : FlatRows) (version n : ℕ) (fields : List Field) → ArePlaced 0 fields → AllAlive version fields → floor version fields ≤ n
        → IsTable table → stands_for table ≡ scalars_of fields → RowsFit n table.rows.items }
{}
