//! Tag-value texts translated to messages by the plans of a mapping.
#![tactic(auto)]

mod numbered;
mod plan;
mod translate;
mod trees;

pub use plan::{BackPlan, make_back_plan};
pub use translate::{ToSbeErr, to_sbe, type_in};
