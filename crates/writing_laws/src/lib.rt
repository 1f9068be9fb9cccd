//! What can be written, by the definitions of the wire: which values and messages have bytes, and that these are read
//! back as them. No code runs here: the laws are functions without a body.
#![tactic(auto)]

pub mod laws;
