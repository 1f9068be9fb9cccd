// Eight bytes of a text at once. No contract covers the result.
use byteorder::{ByteOrder, LittleEndian};

/// The byte that ends a field.
pub(crate) const SOH: u8 = 1;

/// How many bytes a word has.
const WORD: usize = 8;

/// Each byte of it is 1, as SOH is.
const ONES: u64 = 0x0101_0101_0101_0101;

/// The highest bit of each byte.
const TOPS: u64 = 0x8080_8080_8080_8080;

/// Each byte of it is the digit 0.
const ZEROS: u64 = 0x3030_3030_3030_3030;

/// Added to a byte above 9, each byte of it sets the highest bit.
const OVER_NINE: u64 = 0x7676_7676_7676_7676;

/// Each byte of it is a point.
const POINTS: u64 = 0x2E2E_2E2E_2E2E_2E2E;

/// The lowest byte of each half.
const HALVES: u64 = 0x0000_00FF_0000_00FF;

/// What the first and the third pair of digits count for: 100, and in the upper half 1,000,000.
const ODD_PAIRS: u64 = 0x000F_4240_0000_0064;

/// What the second and the fourth pair count for: 1, and in the upper half 10,000.
const EVEN_PAIRS: u64 = 0x0000_2710_0000_0001;

/// The first eight bytes, or 0 if there are fewer.
#[inline(always)]
pub(crate) fn word_of(bytes: &[u8]) -> u64 {
    if bytes.len() < WORD {
        return 0;
    }
    LittleEndian::read_u64(bytes)
}

/// A value of at most eight bytes that SOH ends, with zeros after it, and how many bytes it has. `None` if it has more.
#[inline(always)]
pub(crate) fn short_text(value: &[u8]) -> Option<(u64, usize)> {
    let word = word_of(value);
    let marks = zeros_in(word ^ ONES);
    if marks != 0 {
        let many = marks.trailing_zeros() / 8;
        let kept = !u64::MAX.wrapping_shl(many.wrapping_mul(8));
        return Some((word & kept, many as usize));
    }
    if is_end(value, WORD) {
        return Some((word, WORD));
    }
    None
}

/// The number that the first `many` bytes of a word spell as digits; the first byte is the lowest. `None` if one isn't a digit, or if
/// there is none.
#[inline(always)]
pub(crate) fn number_in(word: u64, many: usize) -> Option<u64> {
    if many == 0 || many > WORD {
        return None;
    }
    let digits = (word ^ ZEROS).wrapping_shl(((WORD - many) * 8) as u32);
    if (digits.wrapping_add(OVER_NINE) | digits) & TOPS != 0 {
        return None;
    }
    Some(number_of_digits(digits))
}

/// The number with these eight digits; the first is the lowest byte.
#[inline(always)]
fn number_of_digits(digits: u64) -> u64 {
    let pairs = digits.wrapping_mul(10).wrapping_add(digits.wrapping_shr(8));
    let odd = (pairs & HALVES).wrapping_mul(ODD_PAIRS);
    let even = (pairs.wrapping_shr(16) & HALVES).wrapping_mul(EVEN_PAIRS);
    odd.wrapping_add(even).wrapping_shr(32)
}

/// A word without its first point, and how many bytes precede that. `None` if it has none.
#[inline(always)]
pub(crate) fn without_point(word: u64) -> Option<(u64, usize)> {
    let marks = zeros_in(word ^ POINTS);
    if marks == 0 {
        return None;
    }
    let before = marks.trailing_zeros() / 8;
    let kept = !u64::MAX.wrapping_shl(before.wrapping_mul(8));
    Some((word & kept | word.wrapping_shr(8) & !kept, before as usize))
}

/// Whether a text has SOH at an offset.
#[inline(always)]
pub(crate) fn is_end(text: &[u8], at: usize) -> bool {
    at < text.len() && text[at] == SOH
}

/// The highest bit of the first byte that is 0, and of others after it; 0 if none is.
#[inline(always)]
fn zeros_in(word: u64) -> u64 {
    word.wrapping_sub(ONES) & !word & TOPS
}
