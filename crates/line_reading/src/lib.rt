//! Reads messages from JSON lines: a line becomes a message of the schema, or is refused with a code and the place of
//! what is wrong.
#![tactic(auto)]

mod blocks;
mod fields;
mod message;
mod parts;

pub use message::{msg_of_line, msg_of_line_with};
