//! The references of a mapping with their ids resolved: components, groups and messages as the nodes of one graph.
#![tactic(auto)]

mod ids;
mod linking;

pub use ids::Ids;
pub use linking::{count_of, nodes_of, structure_of};
