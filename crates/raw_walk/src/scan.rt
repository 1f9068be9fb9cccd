ghost use Rattle.std.specs.Prelude.{◌≡◌, ◌≤◌, ◌+◌, ◌%◌, length, drop, sum};
ghost use Rattle.tagvalue_codec.specs.Reading.{plain_len};
ghost use Rattle.tagvalue_codec.specs.Places.{FindsTag, IsNumberOf};
ghost use Rattle.tagvalue_codec.specs.Places as places;

use memchr::memchr;

/// The byte that ends a field.
pub const SOH: u8 = 1;

/// The sum of all bytes modulo 256.
pub(crate) fn sum_of(bytes: &[u8]) -> u8
    ensures { result ≡ sum bytes.now % 256 }
{
    let mut sum: u8 = 0;
    for byte in bytes {
        sum = sum.wrapping_add(*byte);
    }
    sum
}

/// The offset of the first SOH from `at` on, or the end if there is none.
pub(crate) fn end_of_value(bytes: &[u8], at: usize) -> usize
    requires { at ≤ length bytes.now }
    ensures { result ≡ at + plain_len (drop at bytes.now) }
{
    match memchr(SOH, &bytes[at..]) {
        Some(i) => at + i,
        None => bytes.len(),
    }
}

/// The tag that begins at `at`, and the offset after its `=`.
pub(crate) fn tag_at(text: &[u8], at: usize) -> Option<(u32, usize)>
    ensures { FindsTag text.now at result }
{
    if at >= text.len() {
        return None;
    }
    let first = text[at];
    if first <= b'0' || b'9' < first {
        return None;
    }
    let mut tag = (first - b'0') as u32;
    let mut i = at + 1;
    while i < text.len() {
        let byte = text[i];
        if byte.is_ascii_digit() {
            if tag >= 100_000_000 {
                return None;
            }
            tag = tag * 10 + (byte - b'0') as u32;
            i += 1;
        } else if byte == b'=' {
            return Some((tag, i + 1));
        } else {
            return None;
        }
    }
    None
}

/// The number in a value of 1 to 9 digits.
pub(crate) fn number_of(value: &[u8]) -> Option<u32>
    ensures { IsNumberOf value.now result }
{
    if value.is_empty() || value.len() > 9 {
        return None;
    }
    let mut number: u32 = 0;
    for digit in value {
        if !digit.is_ascii_digit() {
            return None;
        }
        number = number * 10 + (*digit - b'0') as u32;
    }
    Some(number)
}

/// Whether there is SOH at an offset.
pub(crate) fn ends_at(front: &[u8], to: usize) -> bool
    ensures { result ≡ places.ends_at to front.now }
{
    to < front.len() && front[to] == SOH
}
