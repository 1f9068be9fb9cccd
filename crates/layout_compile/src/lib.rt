//! The layout of a checked schema: its tables, built level by level.
#![tactic(auto)]

mod flats;
mod numbers;
mod tables;
mod templates;

pub use tables::compile;
