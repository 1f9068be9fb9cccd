//! What is known of a message that a line holds, by the definition of what is read. No code runs here: the law is a
//! function without a body.
#![tactic(auto)]

pub mod laws;
