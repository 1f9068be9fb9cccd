// The values of decimals.
ghost use Rattle.std.specs.Prelude.{◌≡◌, ◌≤◌, unsigned_abs, FitsSigned, Ok};
ghost use Rattle.std.specs.Int.{w32};
ghost use Rattle.fix_values.specs.declared.decimal.TheConstants.{MOST_DIGITS};
ghost use Rattle.fix_values.specs.Decimals.{decimal_of, fitted, leaf_number};
ghost use Rattle.fix_values.specs.Numerals.{is_value};
ghost use Rattle.sbe_types.specs.declared.message.Value as values;
ghost use Rattle.bridge_rules.specs.Members.{decimal_value};
ghost use Rattle.bridge_rules.specs.Texts.{decimal_in_types};
ghost use Rattle.bridge_rules.specs.Values.{floating_value, mantissa_of, value_from};
ghost use Rattle.text_values.specs.Read.{answer_of_read};

use crate::given::not_read;
use crate::value::{Misread, ReadValue};
use fix_values::{Dec, V, fit_decimal, read_decimal};
use sbe_types::Leaf;

/// The value of a decimal with a constant exponent.
pub(crate) fn decimal_in<'a>(
    leaf: &Leaf,
    exponent: i128,
    text: &'a [u8],
) -> Result<ReadValue<'a>, Misread>
    ensures { answer_of_read result ≡ value_from (λ m. decimal_value (values.Num m)) (mantissa_of leaf.now exponent (decimal_of text.now)) }
{
    match mantissa_of(leaf, exponent, text) {
        Ok(mantissa) => Ok(ReadValue::Scaled(Some(mantissa))),
        Err(why) => not_read(why),
    }
}

/// The mantissa of a text with a constant exponent.
fn mantissa_of(leaf: &Leaf, exponent: i128, text: &[u8]) -> Result<i128, V>
    ensures { result ≡ mantissa_of leaf.now exponent (decimal_of text.now) }
{
    match read_decimal(text) {
        Ok(number) => fitted(&number, leaf, exponent),
        Err(why) => Err(why),
    }
}

/// The mantissa of a decimal in the form that texts have, with any exponent.
fn fitted(number: &Dec, leaf: &Leaf, exponent: i128) -> Result<i128, V>
    requires near { unsigned_abs number.now.exponent ≤ MOST_DIGITS }
    ensures { result ≡ fitted number.now leaf.now exponent }
{
    match i32::try_from(exponent) {
        Ok(exponent) => fit_decimal(number, leaf, exponent),
        Err(_) => fitted_far(number, leaf, exponent),
    }
}

/// The mantissa with an exponent that is far from all that texts have: only zero has one.
fn fitted_far(number: &Dec, leaf: &Leaf, exponent: i128) -> Result<i128, V>
    requires near { unsigned_abs number.now.exponent ≤ MOST_DIGITS }
    requires far { ¬ FitsSigned w32 exponent }
    ensures { result ≡ fitted number.now leaf.now exponent }
{
    let Leaf {
        low: _low,
        high: _high,
        ..
    } = *leaf;
    let Dec {
        mantissa,
        exponent: _own,
    } = *number;
    if mantissa == 0 {
        return leaf_number(leaf, 0);
    }
    if exponent > 0 {
        return Err(V::Inexact);
    }
    Err(V::Range)
}

/// The number, if it is one of the leaf's.
pub(crate) fn leaf_number(leaf: &Leaf, n: i128) -> Result<i128, V>
    ensures { result ≡ leaf_number leaf.now (Ok n) }
{
    if is_value(leaf, n) {
        return Ok(n);
    }
    Err(V::Range)
}

/// Whether the number is one of the leaf's.
pub(crate) fn is_value(leaf: &Leaf, n: i128) -> bool
    ensures { result ≡ is_value leaf.now n }
{
    !leaf.is_null(n) && leaf.admits(n)
}

/// The value of a decimal with its exponent.
pub(crate) fn floating_in<'a>(
    mantissa: &Leaf,
    exponent: &Leaf,
    text: &'a [u8],
) -> Result<ReadValue<'a>, Misread>
    ensures { answer_of_read result ≡ value_from floating_value (decimal_in_types mantissa.now exponent.now (decimal_of text.now)) }
{
    match typed_decimal(mantissa, exponent, text) {
        Ok(number) => Ok(ReadValue::Pair(Some(number.mantissa), Some(number.exponent as i128))),
        Err(why) => not_read(why),
    }
}

/// The decimal in a text, if each of its numbers fits its type.
fn typed_decimal(mantissa: &Leaf, exponent: &Leaf, text: &[u8]) -> Result<Dec, V>
    ensures { result ≡ decimal_in_types mantissa.now exponent.now (decimal_of text.now) }
{
    match read_decimal(text) {
        Ok(number) => {
            if is_value(mantissa, number.mantissa) && is_value(exponent, number.exponent as i128) {
                return Ok(number);
            }
            Err(V::Range)
        }
        Err(why) => Err(why),
    }
}
