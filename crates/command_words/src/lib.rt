//! The arguments of the command line, and the command that they give.
#![tactic(auto)]

mod forms;
mod options;
mod rows;
mod words;

pub use forms::{FORMS, Form};
pub use options::{Draws, HeadWords, MOST_MESSAGES};
pub use words::{Command, Name, NameList, WordsErr, read_words};
