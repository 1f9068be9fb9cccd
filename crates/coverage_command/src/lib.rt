//! The command `check` over a schema and a mapping: a line for each message of the schema, followed by a line that states whether
//! the mapping covers it, or the first part that it doesn't cover.
#![tactic(auto)]

mod check;
mod lines;
mod rows;

pub use check::{CoverageChecker, load_coverage};
