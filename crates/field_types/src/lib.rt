//! The datatypes of a mapping's fields, for the rules of values in the bridge. No code runs here.
#![tactic(auto)]

pub mod laws;
pub mod rows;
