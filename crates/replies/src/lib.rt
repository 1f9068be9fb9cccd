//! What a run writes for one item of its input: to the output, to the notes, and what becomes of the item.
#![tactic(auto)]

mod draft;
mod verdict;

pub use draft::{Draft, deliver};
pub use verdict::Verdict;
