// Numbers in texts, as their bits, and where they end. No contract covers the result.
use crate::words::{is_end, number_in, short_text, without_point};

/// The most digits after a point.
pub(crate) const MOST_PLACES: usize = 18;

/// The powers of ten.
const POWERS: [u64; MOST_PLACES + 1] = [
    1,
    10,
    100,
    1_000,
    10_000,
    100_000,
    1_000_000,
    10_000_000,
    100_000_000,
    1_000_000_000,
    10_000_000_000,
    100_000_000_000,
    1_000_000_000_000,
    10_000_000_000_000,
    100_000_000_000_000,
    1_000_000_000_000_000,
    10_000_000_000_000_000,
    100_000_000_000_000_000,
    1_000_000_000_000_000_000,
];

/// The natural number of at most eight digits that SOH ends, and how many bytes it has. `None` if there is none.
#[inline(always)]
pub(crate) fn short_natural(value: &[u8]) -> Option<(u64, usize)> {
    let (word, many) = short_text(value)?;
    Some((number_in(word, many)?, many))
}

/// The bits of the mantissa of a decimal that SOH ends, and how many bytes it has. `None` if there is none, or if it has a sign, more
/// than eight bytes, or more than `places` digits after its point.
#[inline(always)]
pub(crate) fn short_decimal(value: &[u8], places: usize) -> Option<(u64, usize)> {
    let (word, many) = short_text(value)?;
    let (number, left) = match without_point(word) {
        None => (number_in(word, many)?, places),
        Some((digits, before)) => {
            let count = many.wrapping_sub(1);
            let left = places.checked_sub(count.wrapping_sub(before))?;
            (number_in(digits, count)?, left)
        }
    };
    Some((with_zeros(number, left), many))
}

/// The same of any length, with a sign or without.
#[inline(never)]
pub(crate) fn long_decimal(value: &[u8], places: usize) -> Option<(u64, usize)> {
    match value {
        [b'-', rest @ ..] => {
            let (mantissa, many) = mantissa_in(rest, places)?;
            Some((mantissa.wrapping_neg(), many.wrapping_add(1)))
        }
        rest => mantissa_in(rest, places),
    }
}

/// The bits of the mantissa of a decimal without a sign, and how many bytes it has.
#[inline(always)]
fn mantissa_in(text: &[u8], places: usize) -> Option<(u64, usize)> {
    let (whole, many) = digits_after(0, text);
    if is_end(text, many) {
        return Some((with_zeros(whole, places), many));
    }
    if many >= text.len() || text[many] != b'.' {
        return None;
    }
    let rest = &text[many + 1..];
    let (number, more) = digits_after(whole, rest);
    if !is_end(rest, more) {
        return None;
    }
    let left = places.checked_sub(more)?;
    Some((
        with_zeros(number, left),
        many.wrapping_add(more).wrapping_add(1),
    ))
}

/// The number that digits spell after those of another number, and how many they are.
#[inline(always)]
fn digits_after(number: u64, text: &[u8]) -> (u64, usize) {
    let mut longer = number;
    let mut many = 0usize;
    for byte in text {
        let digit = byte.wrapping_sub(b'0');
        if digit > 9 {
            break;
        }
        longer = longer.wrapping_mul(10).wrapping_add(u64::from(digit));
        many = many.wrapping_add(1);
    }
    (longer, many)
}

/// A number with `zeros` zeros after its digits.
#[inline(always)]
fn with_zeros(number: u64, zeros: usize) -> u64 {
    if zeros > MOST_PLACES {
        return 0;
    }
    number.wrapping_mul(POWERS[zeros])
}
