//! The definitions of values and of valid bytes, computed on worked fields.

ghost use Rattle.std.specs.Prelude.{◌≡◌, []};
ghost use Rattle.sbe_types.specs.declared.kind.Primitive.TheVariants.{Char, I8, U8, U16};
ghost use Rattle.flat_rows.specs.Scalars.{scalars_of};
ghost use Rattle.flat_rows.specs.Worked.{mixed, mixed_scalars, doubled, doubled_valid, valid_at, none_valid, number};

/// A field of each kind, constants of each kind, a composite in a composite, and stated offsets.
pub fn values_of_worked_fields()
    ensures { scalars_of mixed ≡ mixed_scalars }
{}

/// A block without fields has no values.
pub fn no_fields_have_no_values()
    ensures { scalars_of [] ≡ [] }
{}

/// The valid values of an enum, by byte: with a char or a uint8 each number and the null; otherwise none.
pub fn valid_bytes_of_worked_enums()
    ensures char { valid_at (doubled Char) ≡ doubled_valid }
    ensures byte { valid_at (doubled U8) ≡ doubled_valid }
    ensures signed { valid_at (doubled I8) ≡ none_valid }
    ensures wide { valid_at (doubled U16) ≡ none_valid }
    ensures number { valid_at (number U8) ≡ none_valid }
{}
