//! Bodies that are copied to another version of their schema: those of templates that are the same in both versions, under a
//! header of the other version.
#![tactic(auto)]

mod copies;
pub mod laws;
mod levels;
mod twins;

pub use copies::{Copied, copy_of};
pub use levels::is_same_level;
pub use twins::{Twin, twins_of};
