// The values of numbers, enums, sets and texts.
ghost use Rattle.std.specs.Prelude.{◌≡◌, false, true};
ghost use Rattle.sbe_types.specs.declared.message.Value as values;
ghost use Rattle.sbe_types.specs.Numbers.{natural};
ghost use Rattle.fix_values.specs.Values.{text_read, value_of};
ghost use Rattle.bridge_rules.specs.Texts.{judged_text};
ghost use Rattle.bridge_rules.specs.Values.{bytes_admitted, value_from};
ghost use Rattle.text_values.specs.Read.{answer_of_read};
ghost use Rattle.text_values.specs.Rows.{any_leaf, given};

use crate::given::not_read;
use crate::reading::{ChoiceReading, Reading};
use crate::value::{Misread, ReadValue};
use fix_values::{V, read_text};
use sbe_types::Leaf;

/// The value of a number.
pub(crate) fn number_in<'a>(
    rule: &Reading,
    leaf: &Leaf,
    text: &'a [u8],
) -> Result<ReadValue<'a>, Misread>
    ensures { answer_of_read result ≡ value_from values.Num (value_of rule.now leaf.now text.now) }
{
    match rule.number(leaf, text) {
        Ok(n) => Ok(ReadValue::Number(Some(n))),
        Err(why) => not_read(why),
    }
}

/// The value of an enum.
pub(crate) fn listed_in<'a>(
    rule: &Reading,
    leaf: &Leaf,
    text: &'a [u8],
) -> Result<ReadValue<'a>, Misread>
    ensures { answer_of_read result ≡ value_from values.Enum (value_of rule.now leaf.now text.now) }
{
    match rule.number(leaf, text) {
        Ok(n) => Ok(ReadValue::Listed(n)),
        Err(why) => not_read(why),
    }
}

/// The value of a set.
pub(crate) fn choices_in<'a>(rule: &ChoiceReading, text: &'a [u8]) -> Result<ReadValue<'a>, Misread>
    requires given { given false text.now ≡ true }
    ensures { answer_of_read result ≡ value_from (λ n. values.Set (natural n)) (value_of rule.now any_leaf text.now) }
{
    match rule.bits(text) {
        Ok(bits) => Ok(ReadValue::Choices(bits)),
        Err(why) => not_read(why),
    }
}

/// The value of a text of a char array.
pub(crate) fn passage_in<'a>(leaf: &Leaf, text: &'a [u8]) -> Result<ReadValue<'a>, Misread>
    ensures { answer_of_read result ≡ value_from values.Text (judged_text text.now (text_read leaf.now text.now)) }
{
    match read_text(leaf, text) {
        Ok(()) => Ok(ReadValue::Text(text)),
        Err(why) => not_read(why),
    }
}

/// The value of data.
pub(crate) fn octets_in<'a>(length: &Leaf, text: &'a [u8]) -> Result<ReadValue<'a>, Misread>
    ensures { answer_of_read result ≡ value_from values.Text (bytes_admitted length.now text.now) }
{
    if length.admits(text.len() as i128) {
        return Ok(ReadValue::Text(text));
    }
    not_read(V::Range)
}
