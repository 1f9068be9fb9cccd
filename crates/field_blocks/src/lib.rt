//! The blocks of messages to which the fields of tag-value texts are translated, groups of any depth included.
#![tactic(auto)]

mod blocks;
mod fields;
mod reading;

pub use blocks::block_of_fields;
