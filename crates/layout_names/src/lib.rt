//! The messages of a layout, and the fields, groups and data of each level, found by their names.
#![tactic(auto)]

pub mod laws;
mod name_lists;
mod tables;
pub mod worked;

pub use tables::LayoutNames;
