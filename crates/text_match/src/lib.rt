//! Whether a message is written as a given text.
#![tactic(auto)]

mod matching;

pub use matching::has_text;
