//! The law of copies, stated as a function without a body.

ghost use Rattle.std.specs.Prelude.{◌≡◌, ◌++◌, ℕ, List, Some, drop};
ghost use Rattle.byte_digits.specs.Digits.{IsBytes};
ghost use Rattle.sbe_types.specs.declared.schema.WireSchema.{WireSchema};
ghost use Rattle.sbe_types.specs.declared.message.Msg.{Msg};
ghost use Rattle.sbe_types.specs.Places.{members_end};
ghost use Rattle.sbe_wire.specs.Canonical.{canonical};
ghost use Rattle.sbe_wire.specs.Lays.{Lays};
ghost use Rattle.typed_writer.specs.Steps.{header_in};
ghost use Rattle.schema_facts.specs.IsChecked.{IsChecked};
ghost use Rattle.version_copies.specs.Copies.{IsCopied, IsSame};

/// A message whose template is the same in both versions is rewritten to its own canonical bytes under a header of the other version,
/// and nothing is dropped or filled in.
pub fn same_templates_are_copied()
    ensures { (from to : WireSchema) → IsChecked from → IsChecked to → (template place : ℕ) → IsSame from to template place
        → (header : List ℕ) → header_in to place ≡ Some header
        → (m : Msg) (body : List ℕ) → m.template ≡ template → m.version ≡ from.version → IsBytes body → Lays from m body
        → canonical from m ≡ Some body → IsCopied from to body (header ++ drop (members_end 0 from.header.members) body) }
{}
