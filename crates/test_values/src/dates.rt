//! Days, months, times and moments.

use crate::marks::{number_read, shown, used};
use anyhow::Result;
use fix_dates::{
    Moment, MonthYear, fit_moment, read_day, read_month, read_stamp, read_time, show_day,
    show_month, show_stamp, show_time,
};
use fix_values::V;
use std::alloc::Global;
use test_tables::Row;

/// The answer to a row, or `None` if it names another call.
pub fn answer(alloc: Global, row: &Row) -> Result<Option<String>> {
    let text = match row.call() {
        "show_day" => day_shown(alloc, row)?,
        "read_day" => number_read(alloc, read_day(row.bytes(alloc, 0)?.as_slice()))?,
        "show_month" => month_shown(alloc, row)?,
        "read_month" => month_read(alloc, row.bytes(alloc, 0)?.as_slice())?,
        "show_time" => time_shown(alloc, row)?,
        "read_time" => moment_read(alloc, read_time(row.bytes(alloc, 0)?.as_slice()))?,
        "show_stamp" => stamp_shown(alloc, row)?,
        "read_stamp" => moment_read(alloc, read_stamp(row.bytes(alloc, 0)?.as_slice()))?,
        "fit_moment" => fit_answer(alloc, row)?,
        _ => return Ok(None),
    };
    Ok(Some(text))
}

fn day_shown(alloc: Global, row: &Row) -> Result<String> {
    let mut out = used();
    let answer = show_day(row.number(0)?, &mut out);
    shown(alloc, answer, &out)
}

fn unit_of(row: &Row) -> Result<u8> {
    Ok(row.text(1)?.parse::<u8>()?)
}

fn time_shown(alloc: Global, row: &Row) -> Result<String> {
    let mut out = used();
    let answer = show_time(row.number(0)?, unit_of(row)?, &mut out);
    shown(alloc, answer, &out)
}

fn stamp_shown(alloc: Global, row: &Row) -> Result<String> {
    let mut out = used();
    let answer = show_stamp(row.number(0)?, unit_of(row)?, &mut out);
    shown(alloc, answer, &out)
}

/// The nanoseconds that were read, and the number of digits of the fraction.
fn moment_read(alloc: Global, answer: std::result::Result<Moment, V>) -> Result<String> {
    match answer {
        Ok(moment) => {
            let nanos = moment.nanos;
            let digits = moment.digits;
            Ok(format!(in alloc; "{nanos} {digits}")?)
        }
        Err(v) => Ok(format!(in alloc; "{v}")?),
    }
}

/// A moment in nanoseconds, counted in a unit.
fn fit_answer(alloc: Global, row: &Row) -> Result<String> {
    let moment = Moment {
        nanos: row.number(0)?,
        digits: 9,
    };
    let unit = unit_of(row)?;
    if unit == 0 || unit == 3 || unit == 6 || unit == 9 {
        return number_read(alloc, fit_moment(&moment, unit));
    }
    Ok(format!(in alloc; "no unit")?)
}

/// A part of a month that may be left out.
fn part_of(row: &Row, i: usize) -> Result<Option<i128>> {
    if row.text(i)? == "-" {
        return Ok(None);
    }
    Ok(Some(row.number(i)?))
}

fn month_shown(alloc: Global, row: &Row) -> Result<String> {
    let value = MonthYear {
        year: row.number(0)?,
        month: row.number(1)?,
        day: part_of(row, 2)?,
        week: part_of(row, 3)?,
    };
    let mut out = used();
    let answer = show_month(&value, &mut out);
    shown(alloc, answer, &out)
}

fn part_text(alloc: Global, part: Option<i128>) -> Result<String> {
    match part {
        Some(n) => Ok(format!(in alloc; "{n}")?),
        None => Ok(format!(in alloc; "-")?),
    }
}

fn month_read(alloc: Global, text: &[u8]) -> Result<String> {
    match read_month(text) {
        Ok(value) => {
            let year = value.year;
            let month = value.month;
            let day = part_text(alloc, value.day)?;
            let week = part_text(alloc, value.week)?;
            Ok(format!(in alloc; "{year} {month} {} {}", day.as_str(), week.as_str())?)
        }
        Err(v) => Ok(format!(in alloc; "{v}")?),
    }
}
