//! The texts of sets, looked up by four of their bits at a time. What isn't found so is left to the general rule.
#![tactic(auto)]

mod parts;
mod runs;
mod texts;

pub use texts::{SET_ROOM, SetTexts};
