ghost use Rattle.std.specs.Prelude.{◌≡◌, ◌<◌, ◌^◌, IsTrue, SomeIff, FitsSigned, ℤ, false, Ok, Err};
ghost use Rattle.std.specs.Int.{w128};
ghost use Rattle.std.specs.Option.{option_map_or};
ghost use Rattle.std.specs.Str.{all_ascii_digits};
ghost use Rattle.std.specs.Str.Parse.{digits_value, digits_value_after};
ghost use Rattle.sbe_types.specs.Shown as shown;
ghost use Rattle.fix_values.specs.Numerals as numerals;
ghost use Rattle.fix_values.specs.Decimals.{leaf_number};

use crate::V;
use sbe_types::{Leaf, LeafShape, Presence};

/// Whether the text begins with a minus sign, and the rest of the text.
pub fn split_sign(text: &[u8]) -> (bool, &[u8])
    ensures negative { result.0 ≡ numerals.is_negative text.now }
    ensures digits { result.1.now ≡ numerals.unsigned text.now }
{
    if text.is_empty() || text[0] != b'-' {
        (false, text)
    } else {
        (true, &text[1..])
    }
}

/// Whether each byte is a decimal digit.
pub fn is_digits(bytes: &[u8]) -> bool
    ensures { result ≡ all_ascii_digits bytes.now }
{
    for byte in bytes {
        if !byte.is_ascii_digit() {
            return false;
        }
    }
    true
}

/// Whether the bytes are one or more digits, and nothing else.
pub fn is_numeral(bytes: &[u8]) -> bool
    ensures { result ≡ numerals.is_numeral bytes.now }
{
    !bytes.is_empty() && is_digits(bytes)
}

/// The number that the digits spell when appended to those of `number`, if it is below 2^128.
pub fn number_after(number: u128, digits: &[u8]) -> Option<u128>
    requires { IsTrue (all_ascii_digits digits.now) }
    ensures { let spelled = digits_value_after 10 number digits.now
        in SomeIff result (spelled < 2 ^ 128) spelled }
{
    let mut so_far = number;
    for digit in digits {
        let value = (*digit - b'0') as u128;
        so_far = so_far.checked_mul(10)?.checked_add(value)?;
    }
    Some(so_far)
}

/// The number that the digits spell when appended to those of `number`. It is small.
pub fn small_after(number: u128, digits: &[u8]) -> u128
    requires digits { IsTrue (all_ascii_digits digits.now) }
    requires small { digits_value_after 10 number digits.now < 2 ^ 127 }
    ensures { result ≡ digits_value_after 10 number digits.now }
{
    let mut so_far = number;
    for digit in digits {
        so_far = so_far * 10 + (*digit - b'0') as u128;
    }
    so_far
}

/// The number with this sign and these digits, if it fits an i128.
pub fn spelled(negative: bool, digits: &[u8]) -> Option<i128>
    requires { IsTrue (numerals.is_numeral digits.now) }
    ensures { let number = numerals.signed negative (digits_value 10 digits.now)
        in SomeIff result (FitsSigned w128 number) number }
{
    let size = number_after(0, digits)?;
    signed(negative, size)
}

/// The number with this sign and size, if it fits an i128.
pub fn signed(negative: bool, size: u128) -> Option<i128>
    ensures { let number = numerals.signed negative size
        in SomeIff result (FitsSigned w128 number) number }
{
    if size <= i128::MAX as u128 {
        return Some(signed_small(negative, size));
    }
    if negative && size == i128::MAX as u128 + 1 {
        return Some(i128::MIN);
    }
    None
}

/// The number with this sign and size, which fits an i128.
pub fn signed_small(negative: bool, size: u128) -> i128
    requires { size < 2 ^ 127 }
    ensures { result ≡ numerals.signed negative size }
{
    let number = size as i128;
    if negative { -number } else { number }
}

/// A number of the leaf. `None` means a number that an i128 doesn't hold, which can't be one of the leaf's.
pub fn admitted(leaf: &Leaf, number: Option<i128>) -> Result<i128, V>
    ensures value { result ≡ option_map_or (λ n. leaf_number leaf.now (Ok n)) number (Err V.Range) }
    ensures outside { (n : ℤ) → ¬ FitsSigned w128 n → numerals.is_value leaf.now n ≡ false }
{
    let Leaf {
        low: _low,
        high: _high,
        ..
    } = *leaf;
    match number {
        Some(number) => {
            if is_value(leaf, number) {
                Ok(number)
            } else {
                Err(V::Range)
            }
        }
        None => Err(V::Range),
    }
}

/// Whether the number is one of the leaf's: it is within the range and isn't the null of an optional leaf.
pub fn is_value(leaf: &Leaf, number: i128) -> bool
    ensures { result ≡ numerals.is_value leaf.now number }
{
    let Leaf { low, high, .. } = *leaf;
    !is_null(leaf, number) && low <= number && number <= high
}

/// Whether the number is the null of an optional leaf. Octets have none.
pub fn is_null(leaf: &Leaf, number: i128) -> bool
    ensures { result ≡ shown.is_null leaf.now number }
{
    let Leaf {
        shape,
        presence,
        null,
        ..
    } = *leaf;
    is_optional(presence) && !is_octets(shape) && number == null
}

fn is_optional(presence: Presence) -> bool
    ensures { result ≡ shown.is_optional presence }
{
    match presence {
        Presence::Optional => true,
        Presence::Required | Presence::Constant => false,
    }
}

fn is_octets(shape: LeafShape) -> bool
    ensures { result ≡ shown.is_octets shape }
{
    match shape {
        LeafShape::Octets => true,
        LeafShape::Number | LeafShape::RangedText | LeafShape::EncodedText | LeafShape::Numbers =>
            false,
    }
}
