// The digits of numbers.
ghost use Rattle.std.specs.Prelude.{◌≡◌, ◌≤◌, ◌<◌, ◌++◌, ◌∷◌, [], length, decimal};
ghost use Rattle.tagvalue_codec.specs.Fields.{soh};
ghost use Rattle.tagvalue_codec.specs.Texts.{three_digits};

use crate::scan::SOH;
use itoa::Buffer;

/// The number of decimal digits of a number.
#[inline(always)]
pub(crate) fn digit_count(number: u64) -> u64
    ensures is { result ≡ length (decimal number) }
    ensures few { result ≤ 20 }
{
    if number < 10 {
        return 1;
    }
    if number < 100 {
        return 2;
    }
    if number < 1000 {
        return 3;
    }
    long_digit_count(number)
}

/// The same, by writing them.
fn long_digit_count(number: u64) -> u64
    ensures is { result ≡ length (decimal number) }
    ensures few { result ≤ 20 }
{
    let mut buffer = Buffer::new();
    buffer.format(number).len() as u64
}

/// A number below a thousand in three digits, and SOH.
#[inline(always)]
pub(crate) fn three_digits(number: usize) -> [u8; 4]
    requires { number < 1000 }
    ensures { result ≡ three_digits number ++ soh ∷ [] }
{
    [
        b'0' + (number / 100) as u8,
        b'0' + (number / 10 % 10) as u8,
        b'0' + (number % 10) as u8,
        SOH,
    ]
}
