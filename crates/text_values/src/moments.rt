// The values of days and moments.
ghost use Rattle.std.specs.Prelude.{◌≡◌};
ghost use Rattle.fix_values.specs.Decimals.{leaf_number};
ghost use Rattle.sbe_types.specs.declared.message.Value as values;
ghost use Rattle.date_answers.specs.Answers.{day_read, in_unit, least_unit};
ghost use Rattle.bridge_rules.specs.Rules.{always, on_wire};
ghost use Rattle.bridge_rules.specs.Values.{in_unit_of, instant_read, moment_value, unit_admitted, value_from};
ghost use Rattle.bridge_table.specs.Rows.{epoch_of, unit_of};
ghost use Rattle.text_values.specs.Read.{answer_of_read};
ghost use Rattle.text_values.specs.Instants.{count_of, counted_of, IsInstant};

use crate::decimals::{is_value, leaf_number};
use crate::given::not_read;
use crate::value::{Misread, ReadValue};
use bridge_table::{Epoch, Unit};
use fix_dates::{Moment, read_day, read_stamp, read_time};
use fix_values::{Dec, V, fit_decimal};
use sbe_types::Leaf;

/// The value of a day.
pub(crate) fn day_in<'a>(leaf: &Leaf, text: &'a [u8]) -> Result<ReadValue<'a>, Misread>
    ensures { answer_of_read result ≡ value_from values.Num (leaf_number leaf.now (day_read text.now)) }
{
    match judged_day(leaf, text) {
        Ok(n) => Ok(ReadValue::Number(Some(n))),
        Err(why) => not_read(why),
    }
}

/// The number of a day, as one of the leaf's.
pub(crate) fn judged_day(leaf: &Leaf, text: &[u8]) -> Result<i128, V>
    ensures { result ≡ leaf_number leaf.now (day_read text.now) }
{
    match day_number(text) {
        Ok(n) => leaf_number(leaf, n),
        Err(why) => Err(why),
    }
}

/// The number of the day in a text.
#[tactic(auto, using(crate::proofs::Dates::day_is))]
fn day_number(text: &[u8]) -> Result<i128, V>
    ensures { result ≡ day_read text.now }
{
    read_day(text)
}

/// The value of a time and its unit.
pub(crate) fn moment_in<'a>(
    epoch: Epoch,
    leaf: &Leaf,
    unit: &Unit,
    text: &'a [u8],
) -> Result<ReadValue<'a>, Misread>
    ensures { answer_of_read result
        ≡ value_from (moment_value (unit_of unit.now)) (in_unit_of leaf.now (unit_of unit.now) (instant_read (epoch_of epoch) text.now)) }
{
    match moment_of(epoch, text) {
        Ok(moment) => counted_value(leaf, unit, &moment),
        Err(why) => not_read(why),
    }
}

/// The moment in a text.
fn moment_of(epoch: Epoch, text: &[u8]) -> Result<Moment, V>
    ensures { IsInstant result (instant_read (epoch_of epoch) text.now) }
{
    match epoch {
        Epoch::Unix => stamp_of(text),
        Epoch::Midnight => time_of(text),
    }
}

#[tactic(auto, using(crate::proofs::Dates::stamp_is))]
fn stamp_of(text: &[u8]) -> Result<Moment, V>
    ensures { IsInstant result (instant_read (epoch_of Epoch.Unix) text.now) }
{
    read_stamp(text)
}

#[tactic(auto, using(crate::proofs::Dates::time_is))]
fn time_of(text: &[u8]) -> Result<Moment, V>
    ensures { IsInstant result (instant_read (epoch_of Epoch.Midnight) text.now) }
{
    read_time(text)
}

/// The value of a moment in its unit: the constant one, or the least one that has a place for each digit.
fn counted_value<'a>(leaf: &Leaf, unit: &Unit, moment: &Moment) -> Result<ReadValue<'a>, Misread>
    ensures { answer_of_read result ≡ counted_of leaf.now (unit_of unit.now) moment.now.nanos moment.now.digits }
{
    match unit {
        Unit::Always(unit) => scaled_count(leaf, *unit, moment.nanos),
        Unit::OnWire(own) => paired_count(leaf, own, least_unit(moment.digits), moment.nanos),
    }
}

fn scaled_count<'a>(leaf: &Leaf, unit: u8, nanos: i128) -> Result<ReadValue<'a>, Misread>
    ensures { answer_of_read result ≡ value_from (moment_value (always unit)) (count_of leaf.now unit nanos) }
{
    match counted(leaf, unit, nanos) {
        Ok(n) => Ok(ReadValue::Scaled(Some(n))),
        Err(why) => not_read(why),
    }
}

fn paired_count<'a>(
    leaf: &Leaf,
    own: &Leaf,
    unit: u8,
    nanos: i128,
) -> Result<ReadValue<'a>, Misread>
    ensures { answer_of_read result ≡ value_from (moment_value (on_wire own.now)) (unit_admitted own.now (count_of leaf.now unit nanos)) }
{
    match counted(leaf, unit, nanos) {
        Ok(n) => {
            if !is_value(own, unit as i128) {
                return not_read(V::Range);
            }
            Ok(ReadValue::Pair(Some(n), Some(unit as i128)))
        }
        Err(why) => not_read(why),
    }
}

/// Nanoseconds in a unit, as one of the leaf's numbers.
fn counted(leaf: &Leaf, unit: u8, nanos: i128) -> Result<i128, V>
    ensures { result ≡ leaf_number leaf.now (in_unit nanos unit) }
{
    let places = 9u8.saturating_sub(unit);
    let number = Dec {
        mantissa: nanos,
        exponent: 0,
    };
    fit_decimal(&number, leaf, places as i32)
}

/// The least unit that has a place for each of the digits.
fn least_unit(digits: u8) -> u8
    ensures { result ≡ least_unit digits }
{
    if digits == 0 {
        return 0;
    }
    if digits <= 3 {
        return 3;
    }
    if digits <= 6 {
        return 6;
    }
    9
}
