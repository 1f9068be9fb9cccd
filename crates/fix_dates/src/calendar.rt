ghost use Rattle.std.specs.Prelude.{◌≡◌, ◌≢◌, ◌<◌, IfSome, IfNone};
ghost use Rattle.fix_dates.specs.declared.calendar.Day.{Day as AnyDay};
ghost use Rattle.fix_dates.specs.Calendar.{IsDay, number_of};

use jiff_core::civil::Date;

/// A year, a month and a day, which need not exist in the calendar.
#[derive(Clone, Copy, Debug, PartialEq, Eq, Drop)]
pub struct Day {
    /// From 0 to 9999.
    pub year: u16,
    /// From 1, which is January.
    pub month: u8,
    /// From 1.
    pub day: u8,
}

/// The number of 1 January of the year 0.
const FIRST: i128 = -719_528;

/// The number of 31 December 9999.
const LAST: i128 = 2_932_896;

/// The day of the years 0 to 9999 with this number.
pub fn day_of(n: i128) -> Option<Day>
    ensures some { IfSome result IsDay }
    ensures year { IfSome result (λ day. day.year < 10000) }
    ensures number { IfSome result (λ day. number_of day ≡ n) }
    ensures none { IfNone result ((day : AnyDay) → IsDay day → day.year < 10000
        → number_of day ≢ n) }
{
    if n < FIRST || n > LAST {
        return None;
    }
    let Ok(date) = Date::from_unix_epoch_day(n as i64) else {
        return None;
    };
    Some(Day {
        year: date.year as u16,
        month: date.month,
        day: date.day,
    })
}

/// The number of a day, if it exists in the calendar.
pub fn number_of_day(day: Day) -> Option<i32>
    requires year { day.year < 10000 }
    requires month { day.month < 100 }
    requires day { day.day < 100 }
    ensures some { IfSome result (λ n. number_of day ≡ n) }
    ensures real { IfSome result (λ n. IsDay day) }
    ensures none { IfNone result (¬ (IsDay day)) }
{
    let Ok(date) = Date::new(day.year as i16, day.month as i8, day.day as i8) else {
        return None;
    };
    Some(date.to_unix_epoch_day())
}
