// The values of months.
ghost use Rattle.std.specs.Prelude.{◌≡◌};
ghost use Rattle.date_answers.specs.Answers.{month_read};
ghost use Rattle.bridge_rules.specs.Members.{month_value};
ghost use Rattle.bridge_rules.specs.Values.{is_month_of, is_value_or_none, month_admitted, value_from};
ghost use Rattle.text_values.specs.Read.{answer_of_read};
ghost use Rattle.text_values.specs.Rows.{leaves_of};

use crate::decimals::is_value;
use crate::given::not_read;
use crate::missing::is_optional;
use crate::value::{Misread, ReadValue};
use bridge_table::MonthLeaves;
use fix_dates::{MonthYear, read_month};
use fix_values::V;
use sbe_types::Leaf;

/// The value of a month.
pub(crate) fn month_in<'a>(leaves: &MonthLeaves, text: &'a [u8]) -> Result<ReadValue<'a>, Misread>
    ensures { answer_of_read result ≡ value_from month_value (month_admitted (leaves_of leaves.now) (month_read text.now)) }
{
    match month_of(leaves, text) {
        Ok(month) => Ok(ReadValue::Month(
            Some(month.year),
            Some(month.month),
            month.day,
            month.week,
        )),
        Err(why) => not_read(why),
    }
}

/// The month in a text, if the types of its parts allow it.
fn month_of(leaves: &MonthLeaves, text: &[u8]) -> Result<MonthYear, V>
    ensures { result ≡ month_admitted (leaves_of leaves.now) (month_read text.now) }
{
    match month_spelled(text) {
        Ok(month) => {
            if is_month_of(leaves, &month) {
                return Ok(month);
            }
            Err(V::Range)
        }
        Err(why) => Err(why),
    }
}

#[tactic(auto, using(crate::proofs::Dates::month_is))]
fn month_spelled(text: &[u8]) -> Result<MonthYear, V>
    ensures { result ≡ month_read text.now }
{
    read_month(text)
}

/// Whether each number of a month fits its type.
fn is_month_of(leaves: &MonthLeaves, month: &MonthYear) -> bool
    ensures { result ≡ is_month_of (leaves_of leaves.now) month.now }
{
    is_value(&leaves.year, month.year)
        && is_value(&leaves.month, month.month)
        && is_value_or_none(&leaves.day, month.day)
        && is_value_or_none(&leaves.week, month.week)
}

/// Whether a number that is present fits the type, or one that is absent may be null.
fn is_value_or_none(leaf: &Leaf, n: Option<i128>) -> bool
    ensures { result ≡ is_value_or_none leaf.now n }
{
    match n {
        None => is_optional(leaf),
        Some(n) => is_value(leaf, n),
    }
}
