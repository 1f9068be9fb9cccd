// Arrays of numbers at a place of a line, taken on trust. No contract covers the result.
use crate::bits::bits_of;
use crate::cursor::Cursor;
use crate::draft::BodyDraft;
use crate::numbers::integer_in;
use sbe_types::{Leaf, Order};

/// The elements of an array, from an offset of the draft on.
#[inline(never)]
pub(crate) fn array_in(
    cursor: &mut Cursor<'_>,
    order: Order,
    leaf: &Leaf,
    draft: &mut BodyDraft,
    at: usize,
) -> bool {
    if !cursor.takes(b'[') {
        return false;
    }
    let wide = leaf.prim.width();
    let mut place = at;
    for _ in 0..leaf.length {
        if !draft.put_bits(order, leaf.prim, element_in(cursor, leaf), place) {
            return false;
        }
        place = place.saturating_add(wide);
        cursor.takes(b',');
    }
    cursor.takes(b']')
}

/// The bits of an element: an integer or null.
fn element_in(cursor: &mut Cursor<'_>, leaf: &Leaf) -> u64 {
    if cursor.takes_text(b"null") {
        return bits_of(leaf.null);
    }
    integer_in(cursor)
}
