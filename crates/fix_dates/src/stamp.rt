ghost use Rattle.std.specs.Prelude.{◌≡◌, ◌≢◌, ◌+◌, ◌*◌, ◌^◌, ◌<◌, ◌≤◌, ◌++◌, length, IfSome, IfNone, ℤ, pos, ◌+ℤ◌, ◌*ℤ◌};
ghost use Rattle.fix_dates.specs.declared.stamp.Stamp.{Stamp as AnyStamp};
ghost use Rattle.fix_dates.specs.Clocks.{IsUnit, FitsClock};
ghost use Rattle.fix_dates.specs.Days.{FitsDay};
ghost use Rattle.fix_dates.specs.Reading.{Reads, Shows};
ghost use Rattle.fix_dates.specs.Stamps.{stamp_text, stamps_in, stamps, FitsIn};

use crate::Moment;
use crate::calendar::{Day, day_of, number_of_day};
use crate::clock::{Clock, clock_at, clock_in, is_time, nanos_of, put_clock, units_of_a_day};
use crate::day::{day_in, put_day};
use fix_values::{Short, V};

/// The parts of the text of a moment: a day and a time of it.
#[derive(Clone, Copy, Debug, PartialEq, Eq, Drop)]
pub struct Stamp {
    pub day: Day,
    pub clock: Clock,
}

const NANOS_OF_A_DAY: i128 = 86_400_000_000_000;

const NANOS_OF_A_SECOND: i128 = 1_000_000_000;

/// Writes a moment as `YYYYMMDD-HH:MM:SS` with `unit` digits after a point, given as a number of units of ten to the
/// minus `unit` seconds since 1 January 1970: FIX's datatype UTCTimestamp.
///
/// # Errors
///
/// `Range` if the year isn't from 0 to 9999, or the unit isn't 0, 3, 6 or 9. `out` is then empty.
pub fn show_stamp(n: i128, unit: u8, out: &mut Short) -> Result<(), V>
    ensures { Shows (stamps_in unit) n result out.new }
{
    out.clear();
    let Some(units) = units_of_a_day(unit) else {
        return Err(V::Range);
    };
    let (days, rest) = days_and_rest(n, units);
    let Some(day) = day_of(days) else {
        return Err(V::Range);
    };
    put_day(out, day);
    out.push(b'-');
    put_clock(out, &clock_at(rest, unit));
    Ok(())
}

/// Reads a moment, FIX's datatype UTCTimestamp, as nanoseconds since 1 January 1970.
///
/// # Errors
///
/// `Spelling` if the text isn't that of a day, a dash and that of a time of day; otherwise `Range` if a part isn't in
/// its range; otherwise `Inexact` if digits after the ninth aren't 0.
pub fn read_stamp(text: &[u8]) -> Result<Moment, V>
    ensures { Reads stamps text.now result }
{
    let Some(stamp) = stamp_in(text) else {
        return Err(V::Spelling);
    };
    let Some(days) = number_of_day(stamp.day) else {
        return Err(V::Range);
    };
    if !is_time(&stamp.clock) {
        return Err(V::Range);
    }
    let Some(nanos) = nanos_of(&stamp.clock) else {
        return Err(V::Inexact);
    };
    Ok(Moment {
        nanos: nanos_since(days, nanos),
        digits: stamp.clock.places.min(9),
    })
}

/// A moment as a number of units of ten to the minus `unit` seconds. Requires the unit 0, 3, 6 or 9.
///
/// # Errors
///
/// `Inexact` if it isn't an integer number of them.
pub fn fit_moment(moment: &Moment, unit: u8) -> Result<i128, V>
    requires { IsUnit unit }
    ensures { FitsIn moment.now unit result }
{
    let nanos = NANOS_OF_A_SECOND / 10i128.pow(unit as u32);
    if moment.nanos % nanos != 0 {
        return Err(V::Inexact);
    }
    Ok(moment.nanos / nanos)
}

/// The whole days in a number of units, rounded down also before 1970, and the units that are left.
fn days_and_rest(n: i128, units: u64) -> (i128, u64)
    requires { 0 < units }
    ensures sum { (result.0 *ℤ pos units) +ℤ pos result.1 ≡ n }
    ensures rest { result.1 < units }
{
    let units = units as i128;
    (n.div_euclid(units), n.rem_euclid(units) as u64)
}

/// The nanoseconds of whole days and of a time of day.
fn nanos_since(days: i32, nanos: u64) -> i128
    ensures { result ≡ (days *ℤ NANOS_OF_A_DAY) +ℤ pos nanos }
{
    days as i128 * NANOS_OF_A_DAY + nanos as i128
}

/// The parts of the text of a moment.
fn stamp_in(text: &[u8]) -> Option<Stamp>
    ensures some { IfSome result (λ stamp. text.now ≡ stamp_text stamp) }
    ensures day { IfSome result (λ stamp. FitsDay stamp.day) }
    ensures clock { IfSome result (λ stamp. FitsClock stamp.clock) }
    ensures none { IfNone result ((stamp : AnyStamp) → FitsDay stamp.day → FitsClock stamp.clock
        → text.now ≢ stamp_text stamp) }
{
    if text.len() < 9 || text[8] != b'-' {
        return None;
    }
    let day = day_in(&text[..8])?;
    let clock = clock_in(&text[9..])?;
    Some(Stamp { day, clock })
}
