//! Laws of the definitions, for every schema whose parts are in ascending order of their places and whose messages have
//! different ids. The checker ensures both.

ghost use Rattle.std.specs.Prelude.{◌≡◌, ◌⊎◌, ◌↔◌, ◌+◌, ◌≤◌, ℕ, true, List, Some, Ok, Err, length, slice_get};
ghost use Rattle.std.specs.Bool.{MatchBool};
ghost use Rattle.sbe_types.specs.declared.schema.Field.{Field};
ghost use Rattle.sbe_types.specs.declared.message.Value.{Value};
ghost use Rattle.sbe_types.specs.declared.message.Value.TheVariants.{Absent};
ghost use Rattle.sbe_types.specs.Places.{width, field_place, bytes_at};
ghost use Rattle.sbe_types.specs.Shows.{Shows};
ghost use Rattle.sbe_wire.specs.declared.mode.Mode.{Mode};
ghost use Rattle.sbe_wire.specs.Versions.{is_alive, floor};
ghost use Rattle.sbe_types.specs.declared.schema.WireSchema.{WireSchema};
ghost use Rattle.sbe_types.specs.declared.message.Msg.{Msg};
ghost use Rattle.sbe_wire.specs.Lays.{FieldsLay, Lays};
ghost use Rattle.sbe_wire.specs.Faults.{Fault, FirstFault};
ghost use Rattle.sbe_wire.specs.Reading.{message_of};
ghost use Rattle.sbe_wire.specs.Placed.{ArePlaced, IsPlaced};

/// The computed message is the one that lies in the body.
pub fn computed_message_lies()
    ensures { (schema : WireSchema) → IsPlaced schema → (body : List ℕ) (m : Msg) → (message_of schema body ≡ Ok m) ↔ Lays schema m body }
{}

/// The computed fault is the first one.
pub fn computed_fault_is_first()
    ensures { (schema : WireSchema) → IsPlaced schema → (body : List ℕ) (fault : Fault) → (message_of schema body ≡ Err fault) ↔ FirstFault schema fault body }
{}

/// At most one message lies in a body.
pub fn at_most_one_message()
    ensures { (schema : WireSchema) → IsPlaced schema → (body : List ℕ) (m n : Msg) → Lays schema m body → Lays schema n body → m ≡ n }
{}

/// Either a message lies in a body, or the body has exactly one first fault.
pub fn message_or_one_fault()
    ensures { (schema : WireSchema) → IsPlaced schema → (body : List ℕ) →
        ((m : Msg) × Lays schema m body)
        ⊎ ((fault : Fault) × FirstFault schema fault body × ((other : Fault) → FirstFault schema other body → other ≡ fault)) }
{}

/// A body in which a message lies has no fault.
pub fn no_fault_of_a_message()
    ensures { (schema : WireSchema) → IsPlaced schema → (body : List ℕ) (m : Msg) (fault : Fault) → Lays schema m body → FirstFault schema fault body → ⊥ }
{}

/// Fields lie in a block exactly if each field that the version has shows its value at its place, and each other one is
/// absent.
pub fn fields_lie_at_their_places()
    ensures { (mode : Mode) (fields : List Field) (values : List Value) (b : List ℕ)
        → FieldsLay mode 0 fields values b
        ↔ ((length values ≡ length fields)
        × ((i : ℕ) (f : Field) (v : Value) → slice_get fields i ≡ Some f → slice_get values i ≡ Some v
        → MatchBool (is_alive mode.version f.since) (Shows mode.order mode.known f.kind v (bytes_at (field_place 0 fields i) (width f.kind) b)) (v ≡ Absent))) }
{}

/// Each field that the version has ends at the floor or before it, and one of them ends at the floor, unless that is 0.
pub fn floor_is_the_last_end()
    ensures holds { (version : ℕ) (fields : List Field) → ArePlaced 0 fields → (i place : ℕ) (f : Field)
        → slice_get fields i ≡ Some f → is_alive version f.since ≡ true → field_place 0 fields i ≡ Some place
        → place + width f.kind ≤ floor version fields }
    ensures met { (version : ℕ) (fields : List Field) → (floor version fields ≡ 0)
        ⊎ ((i : ℕ) × (place : ℕ) × (f : Field) × (slice_get fields i ≡ Some f) × (is_alive version f.since ≡ true)
        × (field_place 0 fields i ≡ Some place) × (floor version fields ≡ place + width f.kind)) }
{}
