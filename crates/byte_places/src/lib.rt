//! Copies bytes to an offset of a buffer that has room for them.
#![tactic(auto)]

mod copies;

pub use copies::{place, place_front, place_within, put, put_front};
