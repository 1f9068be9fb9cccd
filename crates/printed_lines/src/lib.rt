//! The body of the message that a line holds, for lines in the form in which messages are printed: the message that the
//! line seems to hold is written and printed again, and is accepted only if the result is the same line.
#![tactic(auto)]

mod body;
mod constants;
mod lines;

pub use body::body_of_line;
pub use lines::PrintedLines;
