ghost use Rattle.std.specs.Prelude.{◌≡◌, ◌∷◌, [], List, None, bytes_eq, codes, option_map, if◌then◌else◌};
ghost use Rattle.sbe_types.specs.declared.kind.Kind.TheVariants as kinds;
ghost use Rattle.date_answers.specs.Answers.{is_unit};
ghost use Rattle.bridge_rules.specs.Datatypes.{decimal_number, month_of_year};
ghost use Rattle.bridge_rules.specs.Table.{are_named, composite_rule, constant_unit, const_number, decimal_by, kinds_of, moment_by, month_by};
ghost use Rattle.bridge_table.specs.Codes.{datatype_of_row};
ghost use Rattle.bridge_table.specs.Rows.{epoch_of, rule_with};

use crate::datatype::Datatype;
use crate::leaves::{is_integer, is_optional, is_optional_byte, is_single_byte};
use crate::rule::{Epoch, FieldRule, MonthLeaves, Unit};
use sbe_types::{ConstValue, Kind, Leaf, Member};

/// The rule for a composite and the fields of a datatype, if the table has one.
pub fn composite_rule(members: &[Member], datatype: &Datatype) -> Option<FieldRule>
    ensures { option_map (rule_with []) result ≡ composite_rule members.now (datatype_of_row datatype.now) }
{
    match datatype {
        Datatype::DecimalNumber => decimal_rule(members),
        Datatype::Timestamp => moment_rule(Epoch::Unix, members),
        Datatype::TimeOfDay => moment_rule(Epoch::Midnight, members),
        Datatype::MonthOfYear => month_rule(members),
        _ => None,
    }
}

/// A mantissa and an exponent, with these names.
fn decimal_rule(members: &[Member]) -> Option<FieldRule>
    ensures { option_map (rule_with []) result ≡ composite_rule members.now decimal_number }
{
    let [mantissa, exponent] = members else {
        return None;
    };
    if !is_named(mantissa, "mantissa") || !is_named(exponent, "exponent") {
        return None;
    }
    decimal_by(&mantissa.kind, &exponent.kind)
}

/// Whether a member has this name.
fn is_named(member: &Member, name: &str) -> bool
    ensures { result ≡ bytes_eq member.now.name name.now }
{
    member.name.as_slice() == name.as_bytes()
}

/// A decimal, given the kinds of its members.
fn decimal_by(mantissa: &Kind, exponent: &Kind) -> Option<FieldRule>
    ensures { option_map (rule_with []) result ≡ decimal_by (mantissa.now ∷ exponent.now ∷ []) }
{
    let Kind::Leaf(mantissa) = mantissa else {
        return None;
    };
    match exponent {
        Kind::Const(ConstValue::Num(e)) if is_integer(mantissa) => Some(FieldRule::FixedDecimal(
            *mantissa, *e,
        )),
        Kind::Leaf(e) if is_integer(mantissa) && is_integer(e) => Some(FieldRule::FloatingDecimal(
            *mantissa, *e,
        )),
        _ => None,
    }
}

/// A time and a unit, with these names.
fn moment_rule(epoch: Epoch, members: &[Member]) -> Option<FieldRule>
    ensures { option_map (rule_with []) result
        ≡ (if are_named (codes "time" ∷ codes "unit" ∷ []) members.now then moment_by (epoch_of epoch) (kinds_of members.now) else None) }
{
    let [time, unit] = members else {
        return None;
    };
    if !is_named(time, "time") || !is_named(unit, "unit") {
        return None;
    }
    moment_by(epoch, &time.kind, &unit.kind)
}

/// A moment, given the kinds of its members.
fn moment_by(epoch: Epoch, time: &Kind, unit: &Kind) -> Option<FieldRule>
    ensures { option_map (rule_with []) result ≡ moment_by (epoch_of epoch) (time.now ∷ unit.now ∷ []) }
{
    let Kind::Leaf(time) = time else {
        return None;
    };
    match unit {
        Kind::Const(value) => constant_unit(epoch, time, value),
        Kind::Leaf(unit) => wire_unit(epoch, time, unit),
        _ => None,
    }
}

/// A time with a constant unit.
fn constant_unit(epoch: Epoch, time: &Leaf, value: &ConstValue) -> Option<FieldRule>
    ensures { option_map (rule_with []) result ≡ constant_unit (epoch_of epoch) time.now (const_number value.now) }
{
    let number = match value {
        ConstValue::Num(number) => *number,
        ConstValue::Code(_, name) => name.number,
        ConstValue::Text(_) => return None,
    };
    if !is_integer(time) || number < 0 || number > 9 {
        return None;
    }
    let unit = number as u8;
    if !is_unit(unit) {
        return None;
    }
    Some(FieldRule::Moment(epoch, *time, Unit::Always(unit)))
}

/// Whether the unit is seconds, milliseconds, microseconds or nanoseconds, given as decimal places of a second.
fn is_unit(places: u8) -> bool
    ensures { result ≡ is_unit places }
{
    places == 0 || places == 3 || places == 6 || places == 9
}

/// A time whose unit is on the wire.
fn wire_unit(epoch: Epoch, time: &Leaf, unit: &Leaf) -> Option<FieldRule>
    ensures { option_map (rule_with []) result ≡ moment_by (epoch_of epoch) (kinds.Leaf time.now ∷ kinds.Leaf unit.now ∷ []) }
{
    if !is_integer(time) || !is_single_byte(unit) || is_optional(unit.presence) {
        return None;
    }
    Some(FieldRule::Moment(epoch, *time, Unit::OnWire(*unit)))
}

/// A year, a month, a day and a week, with these names.
fn month_rule(members: &[Member]) -> Option<FieldRule>
    ensures { option_map (rule_with []) result ≡ composite_rule members.now month_of_year }
{
    let [year, month, day, week] = members else {
        return None;
    };
    if !is_named(year, "year")
        || !is_named(month, "month")
        || !is_named(day, "day")
        || !is_named(week, "week")
    {
        return None;
    }
    let Kind::Leaf(year) = &year.kind else {
        return None;
    };
    let Kind::Leaf(month) = &month.kind else {
        return None;
    };
    let Kind::Leaf(day) = &day.kind else {
        return None;
    };
    let Kind::Leaf(week) = &week.kind else {
        return None;
    };
    month_by(MonthLeaves {
        year: *year,
        month: *month,
        day: *day,
        week: *week,
    })
}

/// A month, given the types of its members.
fn month_by(leaves: MonthLeaves) -> Option<FieldRule>
    ensures { option_map (rule_with []) result
        ≡ month_by (kinds.Leaf leaves.year ∷ kinds.Leaf leaves.month ∷ kinds.Leaf leaves.day ∷ kinds.Leaf leaves.week ∷ []) }
{
    if !is_integer(&leaves.year)
        || !is_integer(&leaves.month)
        || !is_optional_byte(&leaves.day)
        || !is_optional_byte(&leaves.week)
    {
        return None;
    }
    Some(FieldRule::MonthYear(leaves))
}
