//! The command line: the run of one command over its input.
#![tactic(auto)]

mod engine;
mod laws;
mod pump;
pub mod rows;
mod unopened;

pub use command_steps::{Kept, Step};
pub use command_words::{
    Command, Draws, FORMS, Form, MOST_MESSAGES, Name, NameList, WordsErr, read_words,
};
pub use engine::run;
pub use laws::{one_report, some_report};
pub use pump::Pump;
pub use replies::Verdict;
pub use schema_files::{FileRefusal, FileRole, RefusedFile};
