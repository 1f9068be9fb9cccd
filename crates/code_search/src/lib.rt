//! The code of a number in a list of codes whose numbers grow, found by halves.
#![tactic(auto)]

mod search;

pub use search::{are_growing, code_of};
