//! The line of a message that fits reads back as that message, by the definitions of lines and of their contents. No
//! code runs here: the laws are functions without a body.
#![tactic(auto)]

pub mod laws;
pub mod worked;
