// Numbers that are values of enums and sets.
ghost use Rattle.std.specs.Prelude.{◌≡◌, ◌||◌, not, true, length, pos};
ghost use Rattle.sbe_types.specs.Numbers.{number_of, prim_width};
ghost use Rattle.sbe_types.specs.Shown.{is_null, is_listed, has_listed_bits};
ghost use Rattle.schema_rules.specs.TypeRules.{is_set_primitive};

use named_numbers::{are_listed, is_listed};
use sbe_types::{Leaf, NamedList, Order, Prim, get_num};

/// Whether a number is a value of an enum: its null, a listed one, or any number if not all values are known.
pub(crate) fn shows_enum(leaf: &Leaf, values: &NamedList, known: bool, number: i128) -> bool
    ensures { result ≡ (is_null leaf.now number || (is_listed values.now number || not known)) }
{
    leaf.is_null(number) || (is_listed(values.as_slice(), number) || !known)
}

/// Whether a number is a value of a set: all its bits are listed, or not all choices are known.
pub(crate) fn shows_set(choices: &NamedList, known: bool, number: u64) -> bool
    ensures { result ≡ (has_listed_bits choices.now 64 number || not known) }
{
    are_listed(choices.as_slice(), number) || !known
}

/// The number of a set's bytes.
pub(crate) fn set_number(order: Order, prim: Prim, bytes: &[u8]) -> u64
    requires encoding { is_set_primitive prim ≡ true }
    requires wide { length bytes.now ≡ prim_width prim }
    ensures { pos result ≡ number_of order prim bytes.now }
{
    get_num(order, prim, bytes) as u64
}
