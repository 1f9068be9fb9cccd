ghost use Rattle.std.specs.Prelude.{◌≡◌, ◌≢◌, ◌+◌, ◌*◌, ◌^◌, ◌<◌, ◌≤◌, ◌++◌, ◌↔◌, ℕ, length, pos, IsTrue, IfSome, IfNone};
ghost use Rattle.fix_dates.specs.declared.clock.Clock.{Clock as AnyClock};
ghost use Rattle.fix_dates.specs.Clocks.{clock_text, fraction_text, FitsClock, IsTime, IsUnit, InUnit, count_of};

use crate::digits::{number, put_digits};
use fix_values::{ROOM, Short};

/// The parts of the text of a time of day.
#[derive(Clone, Copy, Debug, PartialEq, Eq, Drop)]
pub struct Clock {
    pub hour: u8,
    pub minute: u8,
    pub second: u8,
    /// The digits after the point, as one number.
    pub fraction: u64,
    /// The number of these digits.
    pub places: u8,
}

/// The seconds of a day: there are no leap seconds.
pub const SECONDS_OF_A_DAY: u64 = 86_400;

/// How many of the unit a day has, or `None` if the unit isn't one of the four.
pub fn units_of_a_day(unit: u8) -> Option<u64>
    ensures some { IfSome result (λ units. units ≡ SECONDS_OF_A_DAY * 10 ^ unit) }
    ensures known { IfSome result (λ units. IsUnit unit) }
    ensures none { IfNone result (¬ (IsUnit unit)) }
{
    match unit {
        0 => Some(SECONDS_OF_A_DAY),
        3 => Some(SECONDS_OF_A_DAY * 1_000),
        6 => Some(SECONDS_OF_A_DAY * 1_000_000),
        9 => Some(SECONDS_OF_A_DAY * 1_000_000_000),
        _ => None,
    }
}

/// The time of day at which `count` of the unit have passed since midnight.
pub fn clock_at(count: u64, unit: u8) -> Clock
    requires unit { IsUnit unit }
    requires count { count < SECONDS_OF_A_DAY * 10 ^ unit }
    ensures fits { InUnit unit result }
    ensures real { IsTime result }
    ensures count { count_of result ≡ count }
{
    let units = 10u64.pow(unit as u32);
    let seconds = count / units;
    Clock {
        hour: (seconds / 3600) as u8,
        minute: (seconds / 60 % 60) as u8,
        second: (seconds % 60) as u8,
        fraction: count % units,
        places: unit,
    }
}

/// Whether each part is in its range.
pub fn is_time(clock: &Clock) -> bool
    ensures { IsTrue result ↔ IsTime clock.now }
{
    clock.hour <= 23 && clock.minute <= 59 && clock.second <= 59
}

/// The nanoseconds since midnight, if they are an integer.
pub fn nanos_of(clock: &Clock) -> Option<u64>
    requires fits { FitsClock clock.now }
    requires real { IsTime clock.now }
    ensures some { IfSome result (λ nanos.
        nanos * 10 ^ clock.now.places ≡ count_of clock.now * 10 ^ 9) }
    ensures none { IfNone result ((nanos : ℕ)
        → nanos * 10 ^ clock.now.places ≢ count_of clock.now * 10 ^ 9) }
{
    let minutes = clock.hour as u64 * 60 + clock.minute as u64;
    let seconds = minutes * 60 + clock.second as u64;
    let rest = fraction_nanos(clock.fraction, clock.places)?;
    Some(seconds * 1_000_000_000 + rest)
}

/// A fraction of a second in nanoseconds, if they are an integer.
fn fraction_nanos(fraction: u64, places: u8) -> Option<u64>
    requires few { places ≤ 12 }
    requires fits { fraction < 10 ^ places }
    ensures some { IfSome result (λ nanos. nanos * 10 ^ places ≡ fraction * 10 ^ 9) }
    ensures bound { IfSome result (λ nanos. nanos < 10 ^ 9) }
    ensures none { IfNone result ((nanos : ℕ) → nanos * 10 ^ places ≢ fraction * 10 ^ 9) }
{
    let picos = fraction * 10u64.pow(12 - places as u32);
    if picos % 1000 != 0 {
        return None;
    }
    Some(picos / 1000)
}

/// Appends a time of day.
pub fn put_clock(out: &mut Short, clock: &Clock)
    requires room { length out.old + 21 ≤ ROOM }
    requires few { clock.now.places ≤ 12 }
    ensures text { out.new ≡ out.old ++ clock_text clock.now }
{
    put_digits(out, clock.hour as u64, 2);
    out.push(b':');
    put_digits(out, clock.minute as u64, 2);
    out.push(b':');
    put_digits(out, clock.second as u64, 2);
    put_fraction(out, clock.fraction, clock.places);
}

/// Appends a point and a fraction, if it has digits.
fn put_fraction(out: &mut Short, fraction: u64, places: u8)
    requires { length out.old + 1 + places ≤ ROOM }
    ensures text { out.new ≡ out.old ++ fraction_text places fraction }
{
    if places > 0 {
        out.push(b'.');
        put_digits(out, fraction, places);
    }
}

/// The parts of the text of a time of day.
pub fn clock_in(text: &[u8]) -> Option<Clock>
    ensures some { IfSome result (λ clock. text.now ≡ clock_text clock) }
    ensures fits { IfSome result FitsClock }
    ensures none { IfNone result ((clock : AnyClock) → FitsClock clock
        → text.now ≢ clock_text clock) }
{
    if text.len() < 8 || text[2] != b':' || text[5] != b':' {
        return None;
    }
    let hour = number(&text[..2])? as u8;
    let minute = number(&text[3..5])? as u8;
    let second = number(&text[6..8])? as u8;
    let (fraction, places) = fraction_in(&text[8..])?;
    Some(Clock {
        hour,
        minute,
        second,
        fraction,
        places,
    })
}

/// The fraction after the seconds, as a number and the number of its digits.
fn fraction_in(text: &[u8]) -> Option<(u64, u8)>
    ensures some { IfSome result (λ f. text.now ≡ fraction_text f.1 f.0) }
    ensures few { IfSome result (λ f. f.1 ≤ 12) }
    ensures fits { IfSome result (λ f. f.0 < 10 ^ f.1) }
    ensures none { IfNone result ((fraction places : ℕ) → places ≤ 12 → fraction < 10 ^ places
        → text.now ≢ fraction_text places fraction) }
{
    if text.is_empty() {
        return Some((0, 0));
    }
    if text[0] != b'.' || text.len() < 2 || text.len() > 13 {
        return None;
    }
    let fraction = number(&text[1..])?;
    Some((fraction, (text.len() - 1) as u8))
}
