//! Laws of the definitions, stated as functions without a body.

ghost use Rattle.std.specs.Prelude.{◌≡◌, ◌≤◌, ℕ, List, Some, length, codes, take};
ghost use Rattle.byte_digits.specs.Digits.{IsBytes};
ghost use Rattle.sbe_types.specs.declared.kind.Order.{Order};
ghost use Rattle.sbe_types.specs.declared.schema.DataField.{DataField};
ghost use Rattle.sbe_types.specs.declared.schema.Field.{Field};
ghost use Rattle.sbe_types.specs.declared.schema.Group.{Group};
ghost use Rattle.sbe_types.specs.declared.schema.Level.{Level, out-Level};
ghost use Rattle.sbe_types.specs.declared.schema.WireSchema.{WireSchema};
ghost use Rattle.sbe_types.specs.declared.message.Value.{Value};
ghost use Rattle.sbe_types.specs.Places.{fields_end, members_end};
ghost use Rattle.sbe_wire.specs.Versions.{own_mode};
ghost use Rattle.sbe_wire.specs.Canonical.{block_bytes, header_numbers};
ghost use Rattle.sbe_wire.specs.Lays.{FieldsLay};
ghost use Rattle.sbe_wire.specs.Placed.{ArePlaced};
ghost use Rattle.writing_laws.specs.Writable.{AreWritableFields, HasNamed};
ghost use Rattle.clean_bodies.specs.Bodies.{IsCanonicalRoot};
ghost use Rattle.clean_bodies.specs.Clean.{IsCleanBlock};
ghost use Rattle.clean_bodies.specs.Good.{IsGoodLevel};
ghost use Rattle.clean_bodies.specs.Says.{SayNumbers};
ghost use Rattle.clean_bodies.specs.Steps.{Place, PartStep, TailStep, EntryStep, GroupStep};
ghost use Rattle.clean_bodies.specs.Whole.{Chain};

/// A clean block is the canonical one of the values that lie in it.
pub fn clean_blocks_are_canonical()
    ensures { (order : Order) (version : ℕ) (fields : List Field) → ArePlaced 0 fields → AreWritableFields version fields → (values : List Value) (b : List ℕ)
        → IsBytes b → fields_end 0 fields ≤ length b → FieldsLay (own_mode order version) 0 fields values b → IsCleanBlock fields b
        → block_bytes order (length b) fields values ≡ Some b }
{}

/// The groups and the data of a level are whole if each of them is.
pub fn a_tail_is_whole_where_its_parts_are()
    ensures { (place : Place) (level : Level) (at mid next : ℕ) → Chain Group (GroupStep place) (out-Level level).groups at mid
        → Chain DataField (PartStep place) (out-Level level).parts mid next → TailStep place level at next }
{}

/// A body is the canonical one of the message that lies in it, if its header has the numbers that are written, and what
/// follows the header is whole.
pub fn a_whole_body_is_canonical()
    ensures { (schema : WireSchema) (level : Level) (body : List ℕ) (next : ℕ) → IsGoodLevel schema.version level
        → HasNamed schema.header.members (codes "blockLength") → IsBytes body
        → SayNumbers schema.order (header_numbers schema level) 0 schema.header.members (take (members_end 0 schema.header.members) body)
        → EntryStep (record { order = schema.order; version = schema.version; body = body }) level (members_end 0 schema.header.members) next
        → IsCanonicalRoot schema level body }
{}
