//! The laws of reading across versions: `old` and `new` are two versions of a schema, `m` is a message, and `body` its
//! bytes. They are stated over the definitions only.

ghost use Rattle.std.specs.Prelude.{◌≡◌, ◌≤◌, ℕ, List, Some, None, Ok, slice_get};
ghost use Rattle.sbe_types.specs.declared.schema.WireSchema.{WireSchema};
ghost use Rattle.sbe_types.specs.declared.schema.Level.{Level, out-Level};
ghost use Rattle.sbe_types.specs.declared.message.Msg.{Msg};
ghost use Rattle.sbe_wire.specs.Faults.{message_named};
ghost use Rattle.sbe_wire.specs.Lays.{Lays};
ghost use Rattle.sbe_wire.specs.Placed.{IsPlaced};
ghost use Rattle.sbe_wire.specs.Reading.{message_of};
ghost use Rattle.version_laws.specs.Answer.{compat};
ghost use Rattle.version_laws.specs.Differ.{differ};
ghost use Rattle.version_laws.specs.Forward.{first_added};
ghost use Rattle.version_laws.specs.PartNames.{SameNames};
ghost use Rattle.version_laws.specs.Plain.{Plain};
ghost use Rattle.version_laws.specs.Projected.{projected, lifted, IsOfNew};
ghost use Rattle.version_laws.specs.declared.difference.Compat.TheVariants as answer;

/// A message of an older writer is read by the newer schema: each later part is absent, and all else is equal.
pub fn older_is_lifted()
    ensures { (old new : WireSchema) → differ old new ≡ None
        → (m : Msg) (body : List ℕ) → Lays old m body → m.version ≤ old.version
        → (n : Msg) × (lifted old new m ≡ Some n) × Lays new n body }
{}

/// A plain message of a newer writer lies under the older schema as what the older schema knows of it.
pub fn plain_is_projected()
    ensures { (old new : WireSchema) → IsPlaced new → differ old new ≡ None
        → (m n : Msg) (body : List ℕ) → Lays new m body → projected old new m ≡ Some n
        → Plain old new m → IsOfNew old new m → Lays old n body }
{}

/// If no added part is in the way, each message is plain.
pub fn forward_is_plain()
    ensures { (old new : WireSchema) → first_added old new ≡ None
        → (m n : Msg) → projected old new m ≡ Some n → Plain old new m }
{}

/// A message of a newer writer lies under the older schema, if the answer is that both directions work.
pub fn two_way_is_projected()
    ensures { (old new : WireSchema) → IsPlaced new → compat old new ≡ answer.TwoWay
        → (m n : Msg) (body : List ℕ) → Lays new m body → projected old new m ≡ Some n
        → IsOfNew old new m → Lays old n body }
{}

/// What the older schema reads from a plain message of a newer writer.
pub fn plain_is_read()
    ensures { (old new : WireSchema) → IsPlaced old → IsPlaced new → differ old new ≡ None
        → (m n : Msg) (body : List ℕ) → Lays new m body → projected old new m ≡ Some n
        → Plain old new m → IsOfNew old new m → message_of old body ≡ Ok n }
{}

/// The parts of the newer schema that are effective by the older one's version are the parts that the older one has, by
/// name and in order, at each level that both have.
pub fn old_parts_keep_their_names()
    ensures { (old new : WireSchema) → differ old new ≡ None
        → (i : ℕ) (level : Level) → slice_get old.messages i ≡ Some level
        → (m : ℕ × Level) × (message_named 0 (out-Level level).id new.messages ≡ Some m)
        × SameNames old.version level m.1 }
{}
