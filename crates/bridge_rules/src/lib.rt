//! The rules of values in the bridge between SBE messages and tag-value fields, as definitions and laws. No code runs
//! here.
#![tactic(auto)]

pub mod laws;
pub mod rows;
