//! Messages of one version of a schema, rewritten in another version. No code runs here: the definitions are in
//! `specs/`, and the laws are functions without a body.
#![tactic(auto)]

pub mod laws;
mod way;
pub mod worked;

pub use way::Way;
