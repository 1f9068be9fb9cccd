//! What the rules of schemas mean together, in the plainest words. No code runs here: the statements are in `specs/`,
//! and their laws are functions without a body.
#![tactic(auto)]

pub mod laws;
