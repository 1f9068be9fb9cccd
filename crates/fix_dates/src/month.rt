ghost use Rattle.std.specs.Prelude.{ℕ, ◌≡◌, ◌≢◌, ◌+◌, ◌<◌, ◌≤◌, ◌++◌, ◌↔◌, length, pos, IsTrue, IfSome, IfNone};
ghost use Rattle.fix_dates.specs.declared.month.Month.{Month as AnyMonth};
ghost use Rattle.fix_dates.specs.declared.month.Part.{Part as AnyPart};
ghost use Rattle.fix_dates.specs.Months.{months, month_text, part_text, day_part, week_part, value_of, IsMonth, HasPart, FitsMonth, FitsPart};
ghost use Rattle.fix_dates.specs.Reading.{Reads, Shows};

use crate::calendar::{Day, number_of_day};
use crate::digits::{number, put_digits};
use fix_values::{ROOM, Short, V};

/// A month of a year, with a day of it, a week of it, or neither.
#[derive(Clone, Copy, Debug, PartialEq, Eq, Drop)]
pub struct MonthYear {
    /// From 0 to 9999, if it is to have a text.
    pub year: i128,
    /// From 1, which is January, to 12.
    pub month: i128,
    /// A day of the month, from 1.
    pub day: Option<i128>,
    /// A week of the month, from 1 to 5.
    pub week: Option<i128>,
}

/// What follows the year and the month.
#[derive(Clone, Copy, Debug, PartialEq, Eq, Drop)]
pub enum Part {
    /// Nothing.
    Whole,
    /// The two digits of a day.
    Day(u8),
    /// `w` and the digit of a week.
    Week(u8),
}

/// The parts of the text of a month.
#[derive(Clone, Copy, Debug, PartialEq, Eq, Drop)]
pub struct Month {
    pub year: u16,
    pub month: u8,
    pub part: Part,
}

/// Writes a month as `YYYYMM`, followed by `DD` if it has a day, or by `w` and one digit if it has a week: FIX's
/// datatype MonthYear.
///
/// # Errors
///
/// `Range` if the year isn't from 0 to 9999, the month isn't from 1 to 12, the day isn't in its month, the week isn't
/// from 1 to 5, or there are both a day and a week. `out` is then empty.
pub fn show_month(value: &MonthYear, out: &mut Short) -> Result<(), V>
    ensures { Shows months value.now result out.new }
{
    out.clear();
    let Some(month) = month_of(value) else {
        return Err(V::Range);
    };
    if !is_month(&month) {
        return Err(V::Range);
    }
    put_month(out, &month);
    Ok(())
}

/// Reads a month, FIX's datatype MonthYear, and the day or the week in the text.
///
/// # Errors
///
/// `Spelling` if the text is neither `YYYYMM` nor `YYYYMMDD` nor `YYYYMM`, `w` and one digit; otherwise `Range` if the
/// month isn't from 1 to 12, the day isn't in its month or the week isn't from 1 to 5.
pub fn read_month(text: &[u8]) -> Result<MonthYear, V>
    ensures { Reads months text.now result }
{
    let Some(month) = month_in(text) else {
        return Err(V::Spelling);
    };
    if !is_month(&month) {
        return Err(V::Range);
    }
    Ok(value_by(&month))
}

/// The parts of the value's text, or `None` if they don't fit their digits.
fn month_of(value: &MonthYear) -> Option<Month>
    ensures some { IfSome result (λ month. value_of month ≡ value.now) }
    ensures fits { IfSome result FitsMonth }
    ensures none { IfNone result ((month : AnyMonth) → FitsMonth month
        → value_of month ≢ value.now) }
{
    let year = small(value.year, 9999)?;
    let month = small(value.month, 99)?;
    let part = part_of(value.day, value.week)?;
    Some(Month {
        year,
        month: month as u8,
        part,
    })
}

/// The part of a month for a day or a week, of which at most one is given.
fn part_of(day: Option<i128>, week: Option<i128>) -> Option<Part>
    ensures day { IfSome result (λ part. day_part part ≡ day) }
    ensures week { IfSome result (λ part. week_part part ≡ week) }
    ensures fits { IfSome result FitsPart }
    ensures none { IfNone result ((part : AnyPart) → FitsPart part
        → day_part part ≡ day → week_part part ≢ week) }
{
    match (day, week) {
        (None, None) => Some(Part::Whole),
        (Some(day), None) => Some(Part::Day(small(day, 99)? as u8)),
        (None, Some(week)) => Some(Part::Week(small(week, 9)? as u8)),
        (Some(_), Some(_)) => None,
    }
}

/// The number, if it is from 0 to the limit.
fn small(n: i128, limit: u16) -> Option<u16>
    ensures some { IfSome result (λ k. pos k ≡ n) }
    ensures bound { IfSome result (λ k. k ≤ limit) }
    ensures none { IfNone result ((k : ℕ) → k ≤ limit → pos k ≢ n) }
{
    if n < 0 || n > limit as i128 {
        return None;
    }
    Some(n as u16)
}

/// The year, the month, and the day or the week in the parts.
fn value_by(month: &Month) -> MonthYear
    ensures { result ≡ value_of month.now }
{
    let (day, week) = match month.part {
        Part::Whole => (None, None),
        Part::Day(day) => (Some(day as i128), None),
        Part::Week(week) => (None, Some(week as i128)),
    };
    MonthYear {
        year: month.year as i128,
        month: month.month as i128,
        day,
        week,
    }
}

/// Whether each part is in its range.
fn is_month(month: &Month) -> bool
    requires { FitsMonth month.now }
    ensures { IsTrue result ↔ IsMonth month.now }
{
    1 <= month.month && month.month <= 12 && has_part(month.year, month.month, month.part)
}

/// Whether the month has this part.
fn has_part(year: u16, month: u8, part: Part) -> bool
    requires year { year < 10000 }
    requires month { month < 100 }
    requires part { FitsPart part }
    ensures { IsTrue result ↔ HasPart year month part }
{
    match part {
        Part::Whole => true,
        Part::Day(day) => number_of_day(Day { year, month, day }).is_some(),
        Part::Week(week) => 1 <= week && week <= 5,
    }
}

/// Appends a month.
fn put_month(out: &mut Short, month: &Month)
    requires { length out.old + 8 ≤ ROOM }
    ensures { out.new ≡ out.old ++ month_text month.now }
{
    put_digits(out, month.year as u64, 4);
    put_digits(out, month.month as u64, 2);
    put_part(out, month.part);
}

/// Appends what follows the year and the month.
fn put_part(out: &mut Short, part: Part)
    requires { length out.old + 2 ≤ ROOM }
    ensures { out.new ≡ out.old ++ part_text part }
{
    match part {
        Part::Whole => {}
        Part::Day(day) => put_digits(out, day as u64, 2),
        Part::Week(week) => {
            out.push(b'w');
            put_digits(out, week as u64, 1);
        }
    }
}

/// The parts of the text of a month.
fn month_in(text: &[u8]) -> Option<Month>
    ensures some { IfSome result (λ month. text.now ≡ month_text month) }
    ensures fits { IfSome result FitsMonth }
    ensures none { IfNone result ((month : AnyMonth) → FitsMonth month
        → text.now ≢ month_text month) }
{
    if text.len() < 6 {
        return None;
    }
    let year = number(&text[..4])? as u16;
    let month = number(&text[4..6])? as u8;
    let part = part_in(&text[6..])?;
    Some(Month { year, month, part })
}

/// What follows the year and the month.
fn part_in(text: &[u8]) -> Option<Part>
    ensures some { IfSome result (λ part. text.now ≡ part_text part) }
    ensures fits { IfSome result FitsPart }
    ensures none { IfNone result ((part : AnyPart) → FitsPart part → text.now ≢ part_text part) }
{
    if text.is_empty() {
        return Some(Part::Whole);
    }
    if text.len() != 2 {
        return None;
    }
    if text[0] == b'w' {
        return Some(Part::Week(number(&text[1..2])? as u8));
    }
    Some(Part::Day(number(&text[..2])? as u8))
}
