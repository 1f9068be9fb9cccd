ghost use Rattle.fix_dates.specs.Clocks.{times_in};
ghost use Rattle.fix_dates.specs.Reading.{Reads, Shows};
ghost use Rattle.fix_dates.specs.Stamps.{times};

use crate::Moment;
use crate::clock::{clock_at, clock_in, is_time, nanos_of, put_clock, units_of_a_day};
use fix_values::{Short, V};

/// Writes a time of day as `HH:MM:SS` with `unit` digits after a point, given as a number of units of ten to the minus
/// `unit` seconds since midnight: FIX's datatype UTCTimeOnly.
///
/// # Errors
///
/// `Range` if it isn't at least 0 and below one day, or the unit isn't 0, 3, 6 or 9. `out` is then empty.
pub fn show_time(n: i128, unit: u8, out: &mut Short) -> Result<(), V>
    ensures { Shows (times_in unit) n result out.new }
{
    out.clear();
    let units = units_of_a_day(unit).ok_or(V::Range)?;
    if n < 0 || n >= units as i128 {
        return Err(V::Range);
    }
    put_clock(out, &clock_at(n as u64, unit));
    Ok(())
}

/// Reads a time of day, FIX's datatype UTCTimeOnly, as nanoseconds since midnight.
///
/// # Errors
///
/// `Spelling` if the text isn't `HH:MM:SS`, with or without a point and 1 to 12 digits; otherwise `Range` if an hour is
/// above 23 or a minute or second above 59; otherwise `Inexact` if digits after the ninth aren't 0.
pub fn read_time(text: &[u8]) -> Result<Moment, V>
    ensures { Reads times text.now result }
{
    let clock = clock_in(text).ok_or(V::Spelling)?;
    if !is_time(&clock) {
        return Err(V::Range);
    }
    let nanos = nanos_of(&clock).ok_or(V::Inexact)?;
    Ok(Moment {
        nanos: nanos as i128,
        digits: clock.places.min(9),
    })
}
