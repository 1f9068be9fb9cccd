//! Finds the first part of a template that a mapping doesn't cover, by a walk over the parts of the template's levels.
#![tactic(auto)]

pub mod laws;
mod level;
mod tables;
mod walk;

pub use tables::Tables;
pub use walk::uncovered;
