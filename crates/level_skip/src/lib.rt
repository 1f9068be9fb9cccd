//! Skips entries, with all their groups and data.
#![tactic(auto)]

pub mod laws;
mod skip;
pub mod worked;

pub use skip::skip_level;
