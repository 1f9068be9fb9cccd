//! Tag-value texts of messages: a head, followed by the fields of a message in the order of the mapped structure.
#![tactic(auto)]

mod head;
pub mod laws;
mod text;
pub mod worked;

pub use head::FixHead;
pub use text::{MessageRows, write_text};
