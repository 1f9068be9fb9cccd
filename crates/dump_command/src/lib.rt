//! The command `dump`: the schemas of its files, and a line for each frame.
#![tactic(auto)]

mod dump;
mod dumped;
mod rows;

pub use dump::{Dumper, load_dump};
