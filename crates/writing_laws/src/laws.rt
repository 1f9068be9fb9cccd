//! Laws of the definitions, stated as functions without a body.

ghost use Rattle.std.specs.Prelude.{◌≡◌, ◌↔◌, ◌≤◌, ℕ, List, Some, None, Ok, true, length, slice_get};
ghost use Rattle.byte_digits.specs.Digits.{IsBytes};
ghost use Rattle.sbe_types.specs.declared.kind.Order.{Order};
ghost use Rattle.sbe_types.specs.declared.kind.Kind.{Kind};
ghost use Rattle.sbe_types.specs.declared.message.Value.{Value};
ghost use Rattle.sbe_types.specs.Shows.{Shows};
ghost use Rattle.sbe_types.specs.Wire.{FitsKind};
ghost use Rattle.sbe_types.specs.declared.schema.WireSchema.{WireSchema};
ghost use Rattle.sbe_types.specs.declared.message.Msg.{Msg};
ghost use Rattle.sbe_types.specs.declared.schema.Level.{Level};
ghost use Rattle.sbe_wire.specs.Placed.{IsPlacedKind, IsPlaced};
ghost use Rattle.sbe_wire.specs.Lays.{Lays};
ghost use Rattle.sbe_wire.specs.Reading.{message_of};
ghost use Rattle.sbe_wire.specs.Fits.{Fits};
ghost use Rattle.sbe_wire.specs.Canonical.{canonical};
ghost use Rattle.sbe_wire.specs.Misfit.{value_misfit, misfit, root_taken};
ghost use Rattle.writing_laws.specs.Writable.{IsWritableKind, IsWritable};

/// A value that bytes show can be written.
pub fn shown_values_fit()
    ensures { (order : Order) (kind : Kind) → IsPlacedKind kind → IsWritableKind kind → (v : Value) (b : List ℕ) → IsBytes b
        → Shows order true kind v b → FitsKind order kind v }
{}

/// A value has no misfit exactly if it fits.
pub fn values_without_misfit_fit()
    ensures { (order : Order) (kind : Kind) → IsPlacedKind kind → IsWritableKind kind → (v : Value)
        → (value_misfit kind v ≡ None) ↔ FitsKind order kind v }
{}

/// A message that lies in a body at the schema's own version can be written.
pub fn what_lies_fits()
    ensures { (schema : WireSchema) → IsPlaced schema → IsWritable schema → (m : Msg) (body : List ℕ) → IsBytes body
        → m.version ≡ schema.version → Lays schema m body → Fits schema m }
{}

/// A message that fits lies in its canonical body, and is the message that is read from it.
pub fn what_fits_lies_in_its_body()
    ensures lies { (schema : WireSchema) → IsPlaced schema → IsWritable schema → (m : Msg) → Fits schema m
        → (body : List ℕ) × (canonical schema m ≡ Some body) × Lays schema m body }
    ensures read { (schema : WireSchema) → IsPlaced schema → IsWritable schema → (m : Msg) → Fits schema m
        → (body : List ℕ) → canonical schema m ≡ Some body → message_of schema body ≡ Ok m }
{}

/// A message has no misfit exactly if it fits and its canonical body is within the limit; its byte count is then that
/// of its body.
pub fn misfit_is_none_where_it_fits()
    ensures fits { (schema : WireSchema) → IsPlaced schema → IsWritable schema → (m : Msg) (limit : ℕ)
        → (misfit schema m limit ≡ None) ↔ (Fits schema m × ((body : List ℕ) × (canonical schema m ≡ Some body) × (length body ≤ limit))) }
    ensures counted { (schema : WireSchema) → IsPlaced schema → IsWritable schema → (m : Msg) (limit : ℕ) (level : Level)
        → slice_get schema.messages m.template ≡ Some level → misfit schema m limit ≡ None
        → (body : List ℕ) → canonical schema m ≡ Some body → root_taken schema limit level m.block ≡ Ok (length body) }
{}

/// A message that was read from a body at the schema's own version is written as a body that is read as the same
/// message. It is written as the same body exactly if that body is the canonical one of some message that fits.
pub fn canonical_of_what_was_read()
    ensures again { (schema : WireSchema) → IsPlaced schema → IsWritable schema → (m : Msg) (body : List ℕ) → IsBytes body
        → m.version ≡ schema.version → Lays schema m body
        → (written : List ℕ) × (canonical schema m ≡ Some written) × Lays schema m written }
    ensures same { (schema : WireSchema) → IsPlaced schema → IsWritable schema → (m : Msg) (body : List ℕ) → IsBytes body
        → m.version ≡ schema.version → Lays schema m body
        → (canonical schema m ≡ Some body) ↔ ((n : Msg) × Fits schema n × (canonical schema n ≡ Some body)) }
{}
