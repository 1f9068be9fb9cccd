//! What the laws of writing require of a schema holds of each checked one. No code runs here: the law is a function
//! without a body.
#![tactic(auto)]

pub mod laws;
