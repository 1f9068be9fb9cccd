//! The levels of a template's structure, by which fields are judged: one row for each place of a mapped structure that
//! the template has, in the structure's order.
#![tactic(auto)]

mod found;
mod groups;
mod level;
mod slots;

pub use level::{BackTree, back_levels};
