//! The members of a repository, those of one kind as one list.
#![tactic(auto)]

mod gather;

pub use gather::{Member, members_in};
