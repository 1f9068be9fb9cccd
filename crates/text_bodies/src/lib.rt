//! Whether a body is the one of the message that a text is translated to.
#![tactic(auto)]

mod few;
mod judging;
mod space;

pub use few::is_few;
pub use judging::is_body_of_text;
pub use space::JudgeSpace;
