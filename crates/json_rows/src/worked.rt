//! The definitions of pieces and of names by byte, computed on worked fields.

ghost use Rattle.std.specs.Prelude.{◌≡◌, [], codes};
ghost use Rattle.json_rows.specs.Pieces.{merged_pieces, pieces_between};
ghost use Rattle.sbe_types.specs.declared.kind.Primitive.TheVariants.{Char, I8, U8, U16};
ghost use Rattle.flat_rows.specs.Worked.{mixed, doubled, number};
ghost use Rattle.json_rows.specs.Worked.{mixed_pieces, nothing, doubled_names, names_at, no_names};

/// A field of each kind, constants of each kind, a composite in a composite, and stated offsets.
pub fn pieces_of_worked_fields()
    ensures { merged_pieces (pieces_between (codes "{") (codes ",") mixed) ≡ mixed_pieces }
{}

/// Without fields there is only the closing bracket.
pub fn no_fields_are_a_bracket()
    ensures { merged_pieces (pieces_between [] [] []) ≡ nothing }
{}

/// The names of an enum by byte: with a char and a uint8 the first name of each number, but none of the null; otherwise
/// none.
pub fn names_of_worked_bytes()
    ensures char { names_at (doubled Char) ≡ doubled_names }
    ensures byte { names_at (doubled U8) ≡ doubled_names }
    ensures signed { names_at (doubled I8) ≡ no_names }
    ensures wide { names_at (doubled U16) ≡ no_names }
    ensures number { names_at (number U8) ≡ no_names }
{}
