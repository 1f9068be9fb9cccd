//! Definitions and laws of messages of the bridge. No code runs here.
#![tactic(auto)]

pub mod laws;
pub mod rows;
