//! Laws of coverage, stated as functions without a body.

ghost use Rattle.std.specs.Prelude.{◌≡◌, ℕ, Some, slice_get};
ghost use Rattle.sbe_types.specs.declared.schema.Level.{Level};
ghost use Rattle.sbe_types.specs.declared.schema.WireSchema.{WireSchema};
ghost use Rattle.schema_facts.specs.IsChecked.{IsChecked};
ghost use Rattle.bridge_cover.specs.Kinds.{HasKindsInOrder};

/// The kinds of the fields of a checked schema's messages are in order, at each depth.
pub fn kinds_of_messages_are_in_order()
    ensures { (schema : WireSchema) (i : ℕ) (level : Level) → IsChecked schema → slice_get schema.messages i ≡ Some level
        → HasKindsInOrder level }
{}
