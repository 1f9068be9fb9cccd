//! Whether a body is that of the message that a text is translated to, by the plans of a mapping.
#![tactic(auto)]

mod judge;
mod pairs;

pub use judge::{TextJudge, TypedText};
