//! Tables of rows that are tests: a row names a call, what it is given, and the required answer.
#![tactic(auto)]

mod content;
mod row;
mod tables;
mod values;

pub use row::Row;
pub use tables::{Calls, judge_tables};
pub use values::{spelled, value_of};
