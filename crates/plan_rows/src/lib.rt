//! The rows of a template's plan: one for each place of a mapped structure that the template has, in the structure's
//! order. Those of a group's entries follow the group's own.
#![tactic(auto)]

mod found;
mod groups;
mod ids;
mod level;
mod row;
mod slots;

pub use ids::LevelIds;
pub use level::level_rows;
pub use row::RuleRow;
