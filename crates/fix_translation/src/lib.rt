//! Messages translated to tag-value texts by the plans of a mapping.
#![tactic(auto)]

pub mod laws;
mod translate;

pub use translate::{ToFixErr, to_fix};
