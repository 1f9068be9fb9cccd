// Numbers at a place of a line, taken on trust. No contract covers the result.
use crate::cursor::Cursor;

/// The bits of an integer.
#[inline(always)]
pub(crate) fn integer_in(cursor: &mut Cursor<'_>) -> u64 {
    if cursor.takes(b'-') {
        natural_in(cursor).wrapping_neg()
    } else {
        natural_in(cursor)
    }
}

/// The digits that come next, as a number.
#[inline(always)]
pub(crate) fn natural_in(cursor: &mut Cursor<'_>) -> u64 {
    let mut number = 0u64;
    let mut count = 0usize;
    for b in cursor.rest() {
        let digit = b.wrapping_sub(b'0');
        if digit > 9 {
            break;
        }
        number = number.wrapping_mul(10).wrapping_add(digit as u64);
        count += 1;
    }
    cursor.pass(count);
    number
}
