//! The command `regrade`: the schemas of its two files, and for each frame that of its message in the other version, or a note of
//! why there is none.
#![tactic(auto)]

mod answer;
mod copies;
pub mod laws;
mod lines;
mod pair;
mod regrader;
mod rows;
mod space;
mod sums;

pub use regrader::{Regrader, load_regrade};
