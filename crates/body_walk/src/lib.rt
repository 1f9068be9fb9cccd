//! Checks a body in one walk: either it is a message of a schema, or its first faulty part is reported.
#![tactic(auto)]

mod blocks;
mod body;
mod data;
mod dims;
mod fields;
mod flat;
mod found;
mod head_numbers;
mod header;
mod kinds;
mod layer;
mod looks;
mod numbers;
mod refusal;
mod walk;

pub use body::{Walked, walk_body};
pub use header::{Start, mode_of};
pub use layer::{Layer, first_child, is_flat};
pub use refusal::{LastRefusal, Refusal};
