//! Laws of the definitions, stated as functions without a body.

ghost use Rattle.std.specs.Prelude.{◌≡◌, ℕ};
ghost use Rattle.sbe_types.specs.declared.kind.Kind.{Kind};
ghost use Rattle.sbe_types.specs.declared.schema.WireSchema.{WireSchema};
ghost use Rattle.writing_laws.specs.Writable.{IsWritableKind, IsWritable};
ghost use Rattle.schema_facts.specs.IsChecked.{IsChecked};
ghost use Rattle.schema_facts.specs.InOrder.{IsKindFrom};

/// Each number that may occur in a kind in order has bytes.
pub fn kinds_in_order_are_writable()
    ensures { (least : ℕ) (kind : Kind) → IsKindFrom least kind → IsWritableKind kind }
{}

/// Each checked schema can be written: the header and the dimensions hold the numbers of their names, each number that
/// may occur in a part has bytes, and each part exists at the schema's version.
pub fn checked_schemas_are_writable()
    ensures { (schema : WireSchema) → IsChecked schema → IsWritable schema }
{}
