ghost use Rattle.std.specs.Prelude.{◌≡◌, ◌≢◌, ◌+◌, ◌≤◌, ◌++◌, length, IfSome, IfNone};
ghost use Rattle.fix_dates.specs.declared.calendar.Day.{Day as AnyDay};
ghost use Rattle.fix_dates.specs.Days.{days, day_text, FitsDay};
ghost use Rattle.fix_dates.specs.Reading.{Reads, Shows};

use crate::calendar::{Day, day_of, number_of_day};
use crate::digits::{number, put_digits};
use fix_values::{ROOM, Short, V};

/// Writes a day as `YYYYMMDD`, given as a number of days from 1 January 1970: FIX's datatypes UTCDateOnly and
/// LocalMktDate.
///
/// # Errors
///
/// `Range` if the year isn't from 0 to 9999. `out` is then empty.
pub fn show_day(n: i128, out: &mut Short) -> Result<(), V>
    ensures { Shows days n result out.new }
{
    out.clear();
    let day = day_of(n).ok_or(V::Range)?;
    put_day(out, day);
    Ok(())
}

/// Reads a day from a text `YYYYMMDD`, as a number of days from 1 January 1970: FIX's datatypes UTCDateOnly and
/// LocalMktDate.
///
/// # Errors
///
/// `Spelling` if the text isn't eight digits; otherwise `Range` if the calendar has no such day.
pub fn read_day(text: &[u8]) -> Result<i128, V>
    ensures { Reads days text.now result }
{
    let day = day_in(text).ok_or(V::Spelling)?;
    let n = number_of_day(day).ok_or(V::Range)?;
    Ok(n as i128)
}

/// Appends the eight digits of a day.
#[tactic(auto, using(crate::proofs::DigitFacts::length_digits))]
pub fn put_day(out: &mut Short, day: Day)
    requires { length out.old + 8 ≤ ROOM }
    ensures text { out.new ≡ out.old ++ day_text day }
    ensures length { length out.new ≡ length out.old + 8 }
{
    put_digits(out, day.year as u64, 4);
    put_digits(out, day.month as u64, 2);
    put_digits(out, day.day as u64, 2);
}

/// The year, month and day that eight digits spell.
pub fn day_in(text: &[u8]) -> Option<Day>
    ensures some { IfSome result (λ day. text.now ≡ day_text day) }
    ensures fits { IfSome result FitsDay }
    ensures none { IfNone result ((day : AnyDay) → FitsDay day → text.now ≢ day_text day) }
{
    if text.len() != 8 {
        return None;
    }
    Some(Day {
        year: number(&text[..4])? as u16,
        month: number(&text[4..6])? as u8,
        day: number(&text[6..8])? as u8,
    })
}
