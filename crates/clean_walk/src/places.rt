// The offsets of members, and their numbers.
ghost use Rattle.std.specs.Prelude.{◌≡◌, IfSome, length, pos};
ghost use Rattle.sbe_types.specs.Numbers.{number_of, prim_width};
ghost use Rattle.sbe_types.specs.Places.{begin_of as begins_at};

use sbe_types::{Order, Prim, get_num};

/// The offset of a part after parts that end at `end`.
#[inline(always)]
pub(crate) fn begin_of(end: usize, offset: Option<u32>) -> usize
    ensures { result ≡ begins_at end offset }
{
    match offset {
        Some(place) => place as usize,
        None => end,
    }
}

/// The number in the bytes of a primitive, or `None` if it doesn't fit 32 bits without a sign.
#[inline(always)]
pub(crate) fn natural_at(order: Order, prim: Prim, bytes: &[u8]) -> Option<u32>
    requires { length bytes.now ≡ prim_width prim }
    ensures { IfSome result (λ n. number_of order prim bytes.now ≡ pos n) }
{
    // The most frequent primitive has a test of its own, since a `match` over all jumps through a table.
    if prim == Prim::U16 {
        return natural(get_num(order, Prim::U16, bytes));
    }
    natural(get_num(order, prim, bytes))
}

/// A number of 32 bits without a sign, or `None` if it isn't one.
#[inline(always)]
fn natural(number: i128) -> Option<u32>
    ensures { IfSome result (λ n. number ≡ pos n) }
{
    match u32::try_from(number) {
        Ok(natural) => Some(natural),
        Err(_) => None,
    }
}
