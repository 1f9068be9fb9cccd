//! The beginning and the end of the line for an item that a command refuses.
#![tactic(auto)]

mod encoding;
mod refused;

pub use encoding::put_encoding;
pub use refused::{put_refused_back, put_refused_front, put_refused_number};
