//! Dates and times in the spelling of FIX tag-value, written and read.
//!
//! Calendar days are jiff's civil dates; the contracts state the proleptic Gregorian calendar by its own rule.
#![tactic(auto)]

mod calendar;
mod clock;
mod day;
mod digits;
pub mod laws;
mod moment;
mod month;
pub mod rows;
mod stamp;
mod time;

pub use day::{read_day, show_day};
pub use moment::Moment;
pub use month::{MonthYear, read_month, show_month};
pub use stamp::{fit_moment, read_stamp, show_stamp};
pub use time::{read_time, show_time};
