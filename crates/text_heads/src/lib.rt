//! The head that a text begins with, to write a message with the same head.
#![tactic(auto)]

mod heads;
mod own;
mod scan;

pub use heads::{TextFront, front_in};
pub use own::HeadTags;
