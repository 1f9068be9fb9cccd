//! The places of one level of a message's structure, found by tag: whether there is a field, or the rows of a group's
//! entries.
#![tactic(auto)]

mod places;

pub use places::{LevelPlaces, first_place};
