// The rows of a plan.
ghost use Rattle.std.specs.Prelude.{◌≡◌, true};
ghost use Rattle.std.specs.Option.{option_map};
ghost use Rattle.bridge_rules.specs.Rules.{Rule};
ghost use Rattle.bridge_rules.specs.Values.{missing_by, value_by};
ghost use Rattle.text_values.specs.Read.{answer_of_read, value_of_read};
ghost use Rattle.text_values.specs.Rows.{given, is_data, row_missing, row_value, value_in_row, Reads};

use crate::decimals::{decimal_in, floating_in};
use crate::fixed::constant_in;
use crate::given::{is_given, not_read};
use crate::missing::missing_value;
use crate::moments::{day_in, moment_in};
use crate::months::month_in;
use crate::numbers::{choices_in, listed_in, number_in, octets_in, passage_in};
use crate::reading::{ChoiceReading, Reading};
use crate::value::{Misread, ReadValue};
use bridge_table::{Epoch, MonthLeaves, Unit};
use fix_values::V;
use lists::Bytes;
use sbe_types::Leaf;

/// How the texts of a field are read.
#[derive(Drop)]
pub enum TextValue {
    /// A number.
    Number(Reading, Leaf),
    /// A valid value of an enum.
    Listed(Reading, Leaf),
    /// The choices of a set.
    Choices(ChoiceReading),
    /// A decimal with this exponent.
    Decimal(Leaf, i128),
    /// A decimal whose exponent is on the wire: the types of both.
    Floating(Leaf, Leaf),
    /// A text of a char array.
    Passage(Leaf),
    /// Data of any bytes, by the type of its length.
    Octets(Leaf),
    /// Data that is a text.
    Words(Leaf),
    /// A day, by its number.
    Day(Leaf),
    /// A time and its unit.
    Moment(Epoch, Leaf, Unit),
    /// A year, a month, and a day or a week of it.
    Month(MonthLeaves),
    /// A constant.
    Const(ConstValue),
}

/// How the texts of a constant are read, and its value.
#[derive(Drop)]
pub enum ConstValue {
    Text(Bytes),
    Number(Reading, Leaf, i128),
    Day(i128),
    Listed(Reading, Leaf, i128),
}

impl TextValue {
    /// The value that a text is read as.
    ///
    /// # Errors
    ///
    /// Why the text can't be read, or that it isn't read as the constant.
    pub fn read<'a>(&self, text: &'a [u8]) -> Result<ReadValue<'a>, Misread>
        ensures { (rule : Rule) → Reads self.now rule → value_by rule text.now ≡ answer_of_read result }
    {
        read_row(self, text)
    }

    /// The value of a part without a field, if it has one.
    pub fn missing<'a>(&self) -> Option<ReadValue<'a>>
        ensures { (rule : Rule) → Reads self.now rule → missing_by rule ≡ option_map value_of_read result }
    {
        missing_value(self)
    }
}

fn read_row<'a>(row: &TextValue, text: &'a [u8]) -> Result<ReadValue<'a>, Misread>
    ensures { answer_of_read result ≡ row_value row.now text.now }
{
    if !is_given(is_data(row), text) {
        return not_read(V::Spelling);
    }
    read_given(row, text)
}

/// Whether the row's texts may contain any bytes.
fn is_data(row: &TextValue) -> bool
    ensures { result ≡ is_data row.now }
{
    match row {
        TextValue::Octets(_) => true,
        TextValue::Number(_, _) => false,
        TextValue::Listed(_, _) => false,
        TextValue::Choices(_) => false,
        TextValue::Decimal(_, _) => false,
        TextValue::Floating(_, _) => false,
        TextValue::Passage(_) => false,
        TextValue::Words(_) => false,
        TextValue::Day(_) => false,
        TextValue::Moment(_, _, _) => false,
        TextValue::Month(_) => false,
        TextValue::Const(_) => false,
    }
}

/// The value of a text that a field may have.
fn read_given<'a>(row: &TextValue, text: &'a [u8]) -> Result<ReadValue<'a>, Misread>
    requires given { given (is_data row.now) text.now ≡ true }
    ensures { answer_of_read result ≡ value_in_row row.now text.now }
{
    match row {
        TextValue::Number(rule, leaf) => number_in(rule, leaf, text),
        TextValue::Listed(rule, leaf) => listed_in(rule, leaf, text),
        TextValue::Choices(rule) => choices_in(rule, text),
        TextValue::Decimal(leaf, exponent) => decimal_in(leaf, *exponent, text),
        TextValue::Floating(mantissa, exponent) => floating_in(mantissa, exponent, text),
        TextValue::Passage(leaf) => passage_in(leaf, text),
        TextValue::Octets(leaf) => octets_in(leaf, text),
        TextValue::Words(leaf) => octets_in(leaf, text),
        TextValue::Day(leaf) => day_in(leaf, text),
        TextValue::Moment(epoch, leaf, unit) => moment_in(*epoch, leaf, unit, text),
        TextValue::Month(leaves) => month_in(leaves, text),
        TextValue::Const(own) => constant_in(own, text),
    }
}
