//! The tags of a structure as a set. The time depends on the number of references, however often a structure contains
//! one of them.
#![tactic(auto)]

mod reach;

pub use reach::tag_set;
