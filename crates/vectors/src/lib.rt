//! Messages of a schema that are drawn from a seed and an index, and bodies with one byte altered.
#![tactic(auto)]

mod altering;
mod blocks;
mod generating;
mod kinds;
pub mod laws;
mod messages;
mod numbers;
mod texts;
mod words;
pub mod worked;

pub use altering::alter;
pub use generating::generate;
