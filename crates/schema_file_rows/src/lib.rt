//! The definition of a schema file, computed on small files. No code runs here: each row is a function without a body.
#![tactic(auto)]

pub mod worked;
