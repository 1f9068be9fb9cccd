//! The command `check`: the schema of one file, and a line for each of its messages.
#![tactic(auto)]

mod check;
mod rows;

pub use check::{Checker, load_check};
