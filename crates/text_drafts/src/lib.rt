//! Drafts the body of the message that a text seems to be translated to. No contract says that the text is translated
//! to that message, or that the draft is a body: a caller has to read it, write its message again and compare.
#![tactic(auto)]

mod blocks;
mod digits;
mod empty;
mod fields;
mod forms;
mod lead;
mod level;
mod making;
mod rows;
mod values;
mod words;

pub use blocks::{Drafting, draft_text};
pub use level::{BackLevels, DraftTree};
pub use making::make_draft_tree;
