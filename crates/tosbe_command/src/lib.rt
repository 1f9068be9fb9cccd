//! The command `tosbe`: the files of a schema and of a mapping, and for each frame of a tag-value text the frame of its
//! message, or the note of why it has none.
#![tactic(auto)]

mod answer;
mod bridge;
mod direct;
mod drafts;
mod files;
mod notes;
mod rows;
mod space;
mod tosbe;

pub use tosbe::{BackTranslator, load_tosbe};
