// The values of parts without a field.
ghost use Rattle.std.specs.Prelude.{◌≡◌};
ghost use Rattle.std.specs.Option.{option_map};
ghost use Rattle.sbe_types.specs.Shown.{is_optional};
ghost use Rattle.sbe_types.specs.declared.message.Value as values;
ghost use Rattle.bridge_rules.specs.Members.{number_or_null, two_members};
ghost use Rattle.bridge_rules.specs.Values.{empty_if_admitted, if_optional, least_or_null, null_month, unit_of_null};
ghost use Rattle.bridge_table.specs.Rows.{unit_of};
ghost use Rattle.text_values.specs.Read.{value_of_read};
ghost use Rattle.text_values.specs.Rows.{leaves_of, row_missing};

use crate::row::TextValue;
use crate::value::ReadValue;
use bridge_table::{MonthLeaves, Unit};
use sbe_types::{Leaf, Presence};

/// The value of a row's part without a field, if it has one.
pub(crate) fn missing_value<'a>(row: &TextValue) -> Option<ReadValue<'a>>
    ensures { row_missing row.now ≡ option_map value_of_read result }
{
    match row {
        TextValue::Number(_, leaf) => if_optional(leaf, ReadValue::Number(None)),
        TextValue::Listed(_, leaf) => if_optional(leaf, ReadValue::Number(None)),
        TextValue::Choices(_) => Some(ReadValue::Choices(0)),
        TextValue::Decimal(leaf, _) => if_optional(leaf, ReadValue::Scaled(None)),
        TextValue::Floating(mantissa, exponent) => {
            if_optional(mantissa, ReadValue::Pair(None, least_or_null(exponent)))
        }
        TextValue::Passage(leaf) => if_optional(leaf, ReadValue::Number(None)),
        TextValue::Octets(leaf) => empty_if_admitted(leaf),
        TextValue::Words(leaf) => empty_if_admitted(leaf),
        TextValue::Day(leaf) => if_optional(leaf, ReadValue::Number(None)),
        TextValue::Moment(_, leaf, unit) => if_optional(leaf, moment_without(unit)),
        TextValue::Month(leaves) => if_optional(&leaves.year, month_without(leaves)),
        TextValue::Const(_) => None,
    }
}

/// The value, if the leaf is optional.
fn if_optional<'a>(leaf: &Leaf, value: ReadValue<'a>) -> Option<ReadValue<'a>>
    ensures { if_optional leaf.now (value_of_read value.entry) ≡ option_map value_of_read result }
{
    if is_optional(leaf) {
        return Some(value);
    }
    None
}

/// Whether a leaf may be null.
pub(crate) fn is_optional(leaf: &Leaf) -> bool
    ensures { result ≡ is_optional leaf.now.presence }
{
    match leaf.presence {
        Presence::Optional => true,
        Presence::Required | Presence::Constant => false,
    }
}

/// A time that is null, and its unit.
fn moment_without<'a>(unit: &Unit) -> ReadValue<'a>
    ensures { value_of_read result ≡ two_members values.Null (unit_of_null (unit_of unit.now)) }
{
    match unit {
        Unit::Always(_) => ReadValue::Scaled(None),
        Unit::OnWire(leaf) => ReadValue::Pair(None, least_or_null(leaf)),
    }
}

/// A month without a year.
fn month_without<'a>(leaves: &MonthLeaves) -> ReadValue<'a>
    ensures { value_of_read result ≡ null_month (leaves_of leaves.now) }
{
    ReadValue::Month(
        None,
        least_or_null(&leaves.month),
        least_or_null(&leaves.day),
        least_or_null(&leaves.week),
    )
}

/// The value of a member after a null one: null, or 0, or its least number.
fn least_or_null(leaf: &Leaf) -> Option<i128>
    ensures { number_or_null result ≡ least_or_null leaf.now }
{
    if is_optional(leaf) {
        return None;
    }
    if leaf.admits(0) {
        return Some(0);
    }
    Some(leaf.low)
}

/// Empty data, if it is allowed.
fn empty_if_admitted<'a>(length: &Leaf) -> Option<ReadValue<'a>>
    ensures { empty_if_admitted length.now ≡ option_map value_of_read result }
{
    if length.admits(0) {
        return Some(ReadValue::Text(&[]));
    }
    None
}
