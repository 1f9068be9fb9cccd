//! The replies of `tofix`: the frame of a text, and the notes of messages that aren't translated.
#![tactic(auto)]

mod covered;
mod frames;
mod given;
pub mod laws;
mod notes;
pub mod worked;

pub use covered::{TextSpace, answer_covered};
pub use given::GivenHead;
pub use notes::{
    note_encoding, note_fault, note_halt, note_no_message, note_uncovered, value_code,
};
