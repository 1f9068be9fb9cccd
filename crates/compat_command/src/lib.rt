//! The command `compat`: the schemas of two files, and the line that states whether they are compatible.
#![tactic(auto)]

mod compat;
mod rows;

pub use compat::{Comparer, load_compat};
