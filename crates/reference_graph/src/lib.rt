//! Structures built from references: components, groups and messages name one another, and a structure may contain a
//! name many times. Questions about a structure are answered from what is known of its parts, without expanding it.
#![tactic(auto)]

mod distinct;
mod extent;
mod graph;
mod laws;
mod learning;
mod numbers;
mod order;
mod structures;
mod tag_set;
mod walk;

pub use extent::{DEPTH_LIMIT, Extent, PLACE_LIMIT};
pub use graph::{Link, Node};
pub use laws::{
    a_link_to_what_ends_ends, depth_is_that_of_the_structure, more_names_change_nothing,
    tags_are_those_of_the_structure,
};
pub use structures::Structures;
pub use tag_set::TagSet;
