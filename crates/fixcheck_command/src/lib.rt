//! The command `fixcheck`: the mapping of its file, and a line for each frame that is a tag-value text.
#![tactic(auto)]

mod answer;
mod fixcheck;
mod lines;
mod rows;

pub use fixcheck::{FixChecker, load_fixcheck};
pub use lines::{note_encoding, note_fault};
