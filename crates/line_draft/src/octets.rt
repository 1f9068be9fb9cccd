// Bytes given by their hexadecimal digits in a line, taken on trust. No contract covers the result.
use crate::cursor::Cursor;
use crate::draft::BodyDraft;

/// Writes the bytes whose digits come before the next quote at an offset of the draft, and returns their number.
#[inline(never)]
pub(crate) fn octets_in(
    cursor: &mut Cursor<'_>,
    draft: &mut BodyDraft,
    at: usize,
) -> Option<usize> {
    let digits = cursor.up_to(b'"')?;
    if !cursor.takes(b'}') {
        return None;
    }
    let mut place = at;
    let mut rest = digits;
    while let [high, low, others @ ..] = rest {
        if !draft.put(place, &[nibble(*high) << 4 | nibble(*low)]) {
            return None;
        }
        place = place.saturating_add(1);
        rest = others;
    }
    Some(digits.len() / 2)
}

/// The number of a hexadecimal digit.
fn nibble(digit: u8) -> u8 {
    if digit >= b'a' {
        digit.wrapping_sub(b'a' - 10) & 15
    } else {
        digit & 15
    }
}
