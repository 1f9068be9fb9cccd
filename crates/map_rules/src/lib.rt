//! The rules for the members of a mapping as a whole: names and ids that occur twice, references to nothing, endless
//! references, tags at two places, wrong datatypes, and limits.
#![tactic(auto)]

mod code_sets;
mod datatypes;
mod fields;
mod laws;
mod references;
mod rule;
mod tables;
mod verdict;

pub use datatypes::is_standard;
pub use laws::{the_first_broken_rule_is_reported, verdicts_are_first_broken_rules};
pub use rule::{Rule, first_broken};
pub use verdict::judge;
