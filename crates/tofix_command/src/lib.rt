//! The command `tofix`: the schemas and the mapping of its files, and for each frame the frame of its text, or a note of
//! why there is none.
#![tactic(auto)]

mod answer;
mod head;
mod loading;
mod rows;
mod tofix;
mod translations;

pub use loading::{ToFixWords, load_tofix};
pub use tofix::Translator;
pub use translations::{Translation, Translations};
