//! The command `build`: the schema of its file, and for each line the frame of its message, or a note of why there is
//! none.
#![tactic(auto)]

mod build;
mod built;
pub mod rows;
mod space;
mod target;
mod unbuilt;

pub use build::{Builder, load_build};
pub use built::{answer_body, answer_built, answer_message};
pub use space::LineSpace;
pub use target::Target;
