ghost use Rattle.std.specs.Prelude.{◌≡◌, ◌==◌, ◌<◌, false, length, option_map, slice_index, true, IfSome, IsTrue, Some};
ghost use Rattle.serde_json.specs.Data.{unsigned};
ghost use Rattle.serde_json.specs.Find.{as_integer, as_u64};
ghost use Rattle.serde_json.specs.Read.{float_of, number_from, number_of};
ghost use Rattle.json_data.specs.Trees.{num_of};

use fast_float::{Numeral, parse_u64};

/// A number of a JSON text: an integer of 64 bits, or the nearest 64-bit float if the text isn't written as such an
/// integer.
#[derive(Clone, Copy, Debug, Drop)]
pub enum Number {
    /// An integer that is at least 0.
    Natural(u64),
    /// An integer below 0.
    Negative(i64),
    /// Anything else, such as `-0` and `1.0`.
    Float(f64),
}

impl Number {
    /// The number that a JSON token denotes, or `None` if no finite float is near it.
    #[inline(always)]
    pub(crate) fn parse(text: &str) -> Option<Number>
        ensures { option_map num_of result ≡ number_of text.now }
    {
        match natural(text.as_bytes()) {
            Some(n) => Some(Number::Natural(n)),
            None => Number::parse_any(text.as_bytes()),
        }
    }

    /// The same, for numbers of all forms.
    #[inline(never)]
    fn parse_any(bytes: &[u8]) -> Option<Number>
        ensures { option_map num_of result ≡ number_of bytes.now }
    {
        if has_minus(bytes) {
            Number::below(&Numeral::scan(&bytes[1..]))
        } else {
            Number::from_digits(&Numeral::scan(bytes))
        }
    }

    /// A number without a sign.
    #[inline(always)]
    fn from_digits(numeral: &Numeral<'_>) -> Option<Number>
        ensures { option_map num_of result ≡ number_from false numeral.now }
    {
        match numeral.to_u64() {
            Some(n) => Some(Number::Natural(n)),
            None => Number::nearest(false, numeral),
        }
    }

    /// A number after a minus.
    #[inline(always)]
    fn below(numeral: &Numeral<'_>) -> Option<Number>
        ensures { option_map num_of result ≡ number_from true numeral.now }
    {
        if let Some(n) = numeral.to_i64(true) {
            if n < 0 {
                return Some(Number::Negative(n));
            }
        }
        Number::nearest(true, numeral)
    }

    /// The nearest float, if it is finite.
    #[inline(never)]
    fn nearest(negative: bool, numeral: &Numeral<'_>) -> Option<Number>
        ensures { option_map num_of result ≡ float_of negative numeral.now }
    {
        let x = numeral.to_float::<f64>(negative);
        if x.is_finite() {
            Some(Number::Float(x))
        } else {
            None
        }
    }

    /// The number as a `u64`, if it is an integer that is at least 0 and below 2^64.
    pub fn as_u64(&self) -> Option<u64>
        ensures { result ≡ as_u64 (num_of self.now) }
    {
        match self {
            Number::Natural(n) => Some(*n),
            Number::Negative(_) | Number::Float(_) => None,
        }
    }

    /// The number as an integer, if it is one.
    pub fn as_i128(&self) -> Option<i128>
        ensures { result ≡ as_integer (num_of self.now) }
    {
        match self {
            Number::Natural(n) => Some(*n as i128),
            Number::Negative(n) => Some(*n as i128),
            Number::Float(_) => None,
        }
    }
}

/// The number of a text of digits only, if it fits 64 bits.
#[inline(always)]
fn natural(digits: &[u8]) -> Option<u64>
    ensures { IfSome result (λ n. number_of digits.now ≡ Some (unsigned n)) }
{
    if digits.is_empty() || digits[0] == b'+' {
        return None;
    }
    match parse_u64(digits) {
        Ok(n) => Some(n),
        Err(_) => None,
    }
}

/// Whether the text begins with a minus.
#[inline(always)]
fn has_minus(bytes: &[u8]) -> bool
    ensures value { result ≡ (slice_index bytes.now 0 == 45) }
    ensures some { IsTrue result → 0 < length bytes.now }
{
    !bytes.is_empty() && bytes[0] == b'-'
}
