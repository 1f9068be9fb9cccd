//! The laws of lines across versions: `old` and `new` are two versions of a schema, `m` is a message that was sent in a
//! frame, `item` is the content of this frame, and `number` the frame's position in the stream.

ghost use Rattle.std.specs.Prelude.{◌≡◌, ◌≤◌, ℕ, Some, None};
ghost use Rattle.sbe_types.specs.declared.schema.WireSchema.{WireSchema};
ghost use Rattle.sbe_types.specs.declared.message.Msg.{Msg};
ghost use Rattle.sbe_wire.specs.Placed.{IsPlaced};
ghost use Rattle.open_framing.specs.Frames.{Item};
ghost use Rattle.dump_lines.specs.Chosen.{schema_for};
ghost use Rattle.dump_lines.specs.Dumped.{message_line};
ghost use Rattle.dump_lines.specs.declared.schemas.Schemas.{Schemas};
ghost use Rattle.version_laws.specs.Answer.{compat};
ghost use Rattle.version_laws.specs.Differ.{differ};
ghost use Rattle.version_laws.specs.Plain.{Plain};
ghost use Rattle.version_laws.specs.Projected.{projected, lifted, IsOfNew};
ghost use Rattle.version_laws.specs.declared.difference.Compat.TheVariants as answer;
ghost use Rattle.version_lines.specs.Answered.{IsSent, alone, shown_line, IsShown};

/// A plain message of a newer writer: a run of the older schema answers the frame with the line of what that schema
/// knows of the message, and with no other.
pub fn plain_is_shown()
    ensures { (old new : WireSchema) → IsPlaced old → IsPlaced new → differ old new ≡ None
        → (m n : Msg) (item : Item) → IsSent new m item → projected old new m ≡ Some n
        → Plain old new m → IsOfNew old new m
        → (number : ℕ) → IsShown (alone old) number item (shown_line old n) }
{}

/// The same for each message that the older schema has, if the answer is that both directions work.
pub fn two_way_is_shown()
    ensures { (old new : WireSchema) → IsPlaced old → IsPlaced new → compat old new ≡ answer.TwoWay
        → (m n : Msg) (item : Item) → IsSent new m item → projected old new m ≡ Some n → IsOfNew old new m
        → (number : ℕ) → IsShown (alone old) number item (shown_line old n) }
{}

/// A plain message of a newer writer: a run of several schemas with the same byte order that reads the body by the
/// older one gives the same answer.
pub fn plain_is_shown_among()
    ensures { (schemas : Schemas) (old new : WireSchema) → IsPlaced old → IsPlaced new → differ old new ≡ None
        → schemas.first.order ≡ old.order → (m n : Msg) (item : Item) → schema_for schemas item.body ≡ old
        → IsSent new m item → projected old new m ≡ Some n → Plain old new m → IsOfNew old new m
        → (number : ℕ) → IsShown schemas number item (message_line schemas old n) }
{}

/// A message of an older writer: a run of the newer schema answers the frame with the line of the message in which each
/// later part is absent, and with no other.
pub fn older_is_shown()
    ensures { (old new : WireSchema) → IsPlaced new → differ old new ≡ None
        → (m : Msg) (item : Item) → IsSent old m item → m.version ≤ old.version
        → (n : Msg) × (lifted old new m ≡ Some n)
        × ((number : ℕ) → IsShown (alone new) number item (shown_line new n)) }
{}
