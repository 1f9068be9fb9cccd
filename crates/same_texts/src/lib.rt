//! The fields of a text whose bytes are those that a message is written as. The crate has only laws.
#![tactic(auto)]

pub mod laws;
