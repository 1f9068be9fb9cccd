//! The laws of the texts of single values, and the definitions computed on rows. No code runs here.
#![tactic(auto)]

pub mod laws;
pub mod rows;
