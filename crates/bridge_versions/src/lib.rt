//! Laws of translations of messages of any version. No code runs here.
#![tactic(auto)]

pub mod laws;
pub mod rows;
