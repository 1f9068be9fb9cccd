//! Bodies all of whose bytes come from their message: where there is no value there are zeros. No code runs here: the
//! laws are functions without a body.
#![tactic(auto)]

pub mod laws;
