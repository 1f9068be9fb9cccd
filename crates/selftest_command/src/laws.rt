//! Laws of the sums.

ghost use Rattle.std.specs.Prelude.{◌≡◌, ◌↔◌, ℕ, [], List, true};
ghost use Rattle.sbe_types.specs.declared.schema.WireSchema.{WireSchema};
ghost use Rattle.sbe_types.specs.declared.message.Msg.{Msg};
ghost use Rattle.sbe_wire.specs.Lays.{Lays};
ghost use Rattle.sbe_wire.specs.Placed.{IsPlaced};
ghost use Rattle.selftest_command.specs.Selftest.{lies_in, no_sums, sums_until};
ghost use Rattle.selftest_command.specs.declared.trial.Trial.{Trial};

/// A body counts as a message exactly if some message lies in it.
pub fn messages_lie_there()
    ensures { (schema : WireSchema) → IsPlaced schema → (body : List ℕ) → (lies_in schema body ≡ true) ↔ ((m : Msg) × Lays schema m body) }
{}

/// All sums are 0 if the schema has no message.
pub fn no_message_adds_nothing()
    ensures { (schema : WireSchema) (trial : Trial) (n : ℕ) → schema.messages ≡ [] → sums_until schema trial n ≡ no_sums }
{}
