//! What the check of a schema prints: a line of JSON for each message. Also texts as JSON.
#![tactic(auto)]

mod counts;
mod messages;
mod text;

pub use messages::{put_message, put_messages};
pub use text::{put, put_count, put_json_text};
