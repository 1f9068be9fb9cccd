//! A law of pieces.

ghost use Rattle.std.specs.Prelude.{◌≡◌, ℕ, List};
ghost use Rattle.sbe_types.specs.declared.schema.Field.{Field};
ghost use Rattle.flat_rows.specs.Scalars.{scalars_of};
ghost use Rattle.json_rows.specs.Pieces.{pieces_between};
ghost use Rattle.json_rows.specs.Tables.{scalars_in};

/// The pieces of fields contain the values of the block, in wire order.
pub fn pieces_have_the_values()
    ensures { (before after : List ℕ) (fields : List Field) → scalars_in (pieces_between before after fields) ≡ scalars_of fields }
{}
