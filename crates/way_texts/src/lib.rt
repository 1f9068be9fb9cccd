//! The texts of paths: the path to a place of a message, as it is printed.
#![tactic(auto)]

mod find;
mod put;

pub use put::put_way;
