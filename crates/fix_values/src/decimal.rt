ghost use Rattle.std.specs.Prelude.{◌≡◌, ◌∷◌, ◌++◌, [], ◌<◌, ◌≤◌, ◌+◌, ◌*◌, ◌^◌, decimal, pos, Ok, Err, length, IsTrue, unsigned_abs, FitsSigned, neg_ℤ, SomeIff};
ghost use Rattle.std.specs.Int.{w32, w128};
ghost use Rattle.std.specs.Str.{all_ascii_digits};
ghost use Rattle.std.specs.Str.Parse.{digits_value};
ghost use Rattle.fix_values.specs.Numerals as numerals;
ghost use Rattle.fix_values.specs.Decimals as decimals;
ghost use Rattle.fix_values.specs.Decimals.{decimal_of, decimal_text, digits_at, fitted, leaf_number, mantissa_under, parts_shown, pointed, Parts, without_leading, without_trailing};
ghost use Rattle.fix_values.specs.Values.{Leaves};

use crate::digits::{admitted, is_digits, signed_small, small_after, split_sign};
use crate::{Dec, ROOM, Short, V};
use itoa::Buffer;
use sbe_types::Leaf;

/// How many digits a decimal's text may have. Ten to this power is the largest power of ten that an i128 holds. A
/// number of 64 bits has at most twenty digits, to which an exponent adds at most eighteen.
pub const MOST_DIGITS: usize = 38;

/// The largest exponent that is written. The least one is its negative.
pub const MOST_EXPONENT: i32 = 18;

/// Writes the text of a decimal, which is the mantissa times ten to the exponent, as FIX's datatype float: a minus
/// sign, the whole part without leading zeros, and a point and the digits after it, up to the last that isn't zero.
///
/// # Errors
///
/// `Range` if the exponent is below -18 or above 18, or if the text would have more than [`MOST_DIGITS`] digits and so
/// couldn't be read back. `out` is then empty.
pub fn show_decimal(mantissa: i128, exponent: i32, out: &mut Short) -> Result<(), V>
    ensures { Leaves result out.new (decimal_text (decimals.dec mantissa exponent)) }
{
    out.clear();
    if exponent < -MOST_EXPONENT || exponent > MOST_EXPONENT {
        return Err(V::Range);
    }
    let size = mantissa.unsigned_abs();
    if exponent < 0 {
        let places = exponent.unsigned_abs();
        let power = 10u128.pow(places);
        return put_decimal(mantissa < 0, size / power, size % power, places, out);
    }
    match size.checked_mul(10u128.pow(exponent as u32)) {
        Some(whole) => put_decimal(mantissa < 0, whole, 0, 0, out),
        None => Err(V::Range),
    }
}

/// Writes the sign, the whole part, and the fraction `rest` / 10^`places`.
fn put_decimal(
    negative: bool,
    whole: u128,
    rest: u128,
    places: u32,
    out: &mut Short,
) -> Result<(), V>
    requires empty { out.old ≡ [] }
    requires few { places ≤ 18 }
    requires rest { rest < 10 ^ places }
    ensures { Leaves result out.new (decimals.shown_text (parts_shown negative whole places rest)) }
{
    put_sign(negative, out);
    let digits = put_whole(whole, out) + put_fraction(rest, places, out);
    if digits > MOST_DIGITS {
        out.clear();
        return Err(V::Range);
    }
    Ok(())
}

fn put_sign(negative: bool, out: &mut Short)
    requires { length out.old < ROOM }
    ensures { out.new ≡ out.old ++ numerals.sign negative }
{
    if negative {
        out.push(b'-');
    }
}

/// Writes a whole part, and returns how many digits count; those of a zero don't.
fn put_whole(whole: u128, out: &mut Short) -> usize
    requires { length out.old + 40 ≤ ROOM }
    ensures text { out.new ≡ out.old ++ decimal whole }
    ensures count { result ≡ length (without_leading (decimal whole)) }
    ensures few { result ≤ 40 }
    ensures short { length (decimal whole) ≤ 40 }
{
    let mut buffer = Buffer::new();
    let digits = buffer.format(whole).as_bytes();
    out.extend(digits);
    if whole == 0 { 0 } else { digits.len() }
}

/// Writes the point and the digits after it, up to the last that isn't zero, and returns the number of these digits.
fn put_fraction(rest: u128, places: u32, out: &mut Short) -> usize
    requires few { places ≤ 18 }
    requires rest { rest < 10 ^ places }
    requires room { length out.old + 19 ≤ ROOM }
    ensures text { out.new ≡ out.old ++ pointed (decimals.fraction_of places rest) }
    ensures count { result ≡ length (decimals.fraction_of places rest) }
    ensures few { result ≤ 18 }
{
    if rest == 0 {
        return 0;
    }
    out.push(b'.');
    put_places(rest, places, out)
}

fn put_places(rest: u128, places: u32, out: &mut Short) -> usize
    requires few { places ≤ 18 }
    requires rest { rest < 10 ^ places }
    requires room { length out.old + places ≤ ROOM }
    ensures text { out.new ≡ out.old ++ decimals.fraction_of places rest }
    ensures count { result ≡ length (decimals.fraction_of places rest) }
    ensures few { result ≤ 18 }
{
    let mut rest = rest;
    let mut left = places;
    let mut count = 0;
    while rest > 0 {
        left -= 1;
        let power = 10u128.pow(left);
        out.push(b'0' + (rest / power) as u8);
        rest %= power;
        count += 1;
    }
    count
}

/// Reads a decimal, FIX's datatype float. Its mantissa isn't a multiple of ten, and zero has the exponent 0.
///
/// # Errors
///
/// `Spelling` unless the text is an optional minus sign and digits with at most one point and at least one digit;
/// `Range` if it has more than [`MOST_DIGITS`] digits, not counting leading zeros of the whole part and trailing zeros
/// of the fraction.
pub fn read_decimal(text: &[u8]) -> Result<Dec, V>
    ensures { result ≡ decimal_of text.now }
{
    let (negative, digits) = split_sign(text);
    let (whole, fraction) = split_point(digits);
    if !are_digits(whole, fraction) {
        return Err(V::Spelling);
    }
    let whole = without_leading_zeros(whole);
    let fraction = without_trailing_zeros(fraction);
    if whole.len() + fraction.len() > MOST_DIGITS {
        return Err(V::Range);
    }
    Ok(reduced(negative, whole, fraction))
}

/// The parts before and after the first point.
fn split_point(digits: &[u8]) -> (&[u8], &[u8])
    ensures whole { result.0.now ≡ decimals.before_point digits.now }
    ensures fraction { result.1.now ≡ decimals.behind_point digits.now }
{
    for i in 0..digits.len() {
        if digits[i] == b'.' {
            return (&digits[..i], &digits[i + 1..]);
        }
    }
    (digits, &[])
}

/// Whether both parts consist of digits, and there is at least one digit.
fn are_digits(whole: &[u8], fraction: &[u8]) -> bool
    ensures { result ≡ decimals.are_digits whole.now fraction.now }
{
    let some = !whole.is_empty() || !fraction.is_empty();
    some && is_digits(whole) && is_digits(fraction)
}

fn without_leading_zeros(digits: &[u8]) -> &[u8]
    ensures { result.now ≡ without_leading digits.now }
{
    for i in 0..digits.len() {
        if digits[i] != b'0' {
            return &digits[i..];
        }
    }
    &[]
}

fn without_trailing_zeros(digits: &[u8]) -> &[u8]
    ensures { result.now ≡ without_trailing digits.now }
{
    let mut end = digits.len();
    while end > 0 && digits[end - 1] == b'0' {
        end -= 1;
    }
    &digits[..end]
}

/// The decimal of a whole part without leading zeros and a fraction without trailing zeros.
fn reduced(negative: bool, whole: &[u8], fraction: &[u8]) -> Dec
    requires whole { IsTrue (all_ascii_digits whole.now) }
    requires fraction { IsTrue (all_ascii_digits fraction.now) }
    requires few { length whole.now + length fraction.now ≤ MOST_DIGITS }
    ensures { result ≡ decimals.reduced negative whole.now fraction.now }
{
    if fraction.is_empty() {
        let kept = without_trailing_zeros(whole);
        return Dec {
            mantissa: spelled_few(negative, kept, fraction),
            exponent: (whole.len() - kept.len()) as i32,
        };
    }
    Dec {
        mantissa: spelled_few(negative, whole, fraction),
        exponent: -(fraction.len() as i32),
    }
}

/// The number with this sign and the digits of both parts, which are few enough for it.
fn spelled_few(negative: bool, whole: &[u8], fraction: &[u8]) -> i128
    requires whole { IsTrue (all_ascii_digits whole.now) }
    requires fraction { IsTrue (all_ascii_digits fraction.now) }
    requires few { length whole.now + length fraction.now ≤ MOST_DIGITS }
    ensures { result ≡ numerals.signed negative (digits_value 10 (whole.now ++ fraction.now)) }
{
    let size = small_after(small_after(0, whole), fraction);
    signed_small(negative, size)
}

/// The mantissa that the decimal has with this exponent, as one of the leaf's numbers.
///
/// # Errors
///
/// `Inexact` if the decimal isn't an integer with this exponent, `Range` if the mantissa isn't in the leaf's range or
/// is its null.
pub fn fit_decimal(dec: &Dec, mantissa: &Leaf, exponent: i32) -> Result<i128, V>
    ensures { result ≡ fitted dec.now mantissa.now exponent }
{
    let Dec {
        mantissa: number,
        exponent: own,
    } = *dec;
    if own < exponent {
        return fit_narrowed(number, exponent.abs_diff(own), mantissa);
    }
    fit_widened(number, own.abs_diff(exponent), mantissa)
}

fn fit_narrowed(number: i128, places: u32, leaf: &Leaf) -> Result<i128, V>
    ensures { result ≡ leaf_number leaf.now (decimals.narrowed number places) }
{
    match narrowed(number, places) {
        Ok(number) => admitted(leaf, Some(number)),
        Err(refusal) => Err(refusal),
    }
}

fn fit_widened(number: i128, places: u32, leaf: &Leaf) -> Result<i128, V>
    ensures { result ≡ leaf_number leaf.now (Ok (decimals.widened number places)) }
{
    admitted(leaf, widened(number, places))
}

/// The number divided by ten to `places`, if that is an integer.
fn narrowed(number: i128, places: u32) -> Result<i128, V>
    ensures { result ≡ decimals.narrowed number places }
{
    if number == 0 {
        return Ok(0);
    }
    if places as usize > MOST_DIGITS {
        return Err(V::Inexact);
    }
    let power = ten_to(places);
    if number % power != 0 {
        return Err(V::Inexact);
    }
    Ok(number / power)
}

/// The number times ten to `places`, if it fits an i128.
fn widened(number: i128, places: u32) -> Option<i128>
    ensures { let wide = decimals.widened number places in SomeIff result (FitsSigned w128 wide) wide }
{
    if number == 0 {
        return Some(0);
    }
    if places as usize > MOST_DIGITS {
        return None;
    }
    number.checked_mul(ten_to(places))
}

/// Ten to a power that an i128 holds.
fn ten_to(places: u32) -> i128
    requires { places ≤ MOST_DIGITS }
    ensures { result ≡ pos (10 ^ places) }
{
    10u128.pow(places) as i128
}
