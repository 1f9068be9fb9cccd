//! The command `selftest`: messages of one schema that are drawn, encoded, framed, and decoded with one byte altered.
#![tactic(auto)]

mod bytes;
pub mod laws;
mod lines;
mod rows;
mod selftest;
mod sums;
mod trial;

pub use selftest::{Tester, load_selftest};
pub use sums::Sums;
pub use trial::Trial;
