//! Whether the line of a message is a given one: it is printed into a sink that accepts only the bytes of that line.
#![tactic(auto)]

mod matched;
mod same;

pub use matched::is_line_of;
