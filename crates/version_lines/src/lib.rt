//! The lines that a reader of one version of a schema prints for the messages of another. No code runs here: the laws
//! are functions without a body.
#![tactic(auto)]

pub mod laws;
pub mod worked;
