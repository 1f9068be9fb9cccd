//! The checker: a schema tree with every type name resolved, or the first rule that it breaks.
#![tactic(auto)]

mod checked;
mod checking;
mod forms;
mod judging;
mod levels;
mod messages;
mod parts;

pub use checked::Checked;
pub use checking::check;
pub use schema_rules::{CCode, CheckErr};
