//! The application fields of a tag-value text, lent from the text.
#![tactic(auto)]

mod gathering;

pub use gathering::{app_fields, value_at};
