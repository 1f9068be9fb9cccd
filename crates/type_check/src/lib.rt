//! The rules for declared types, for the members of composites, and for the fields that name them.
#![tactic(auto)]

mod composites;
mod declared;
mod fields;
mod heads;
mod name_table;
mod refusals;
mod type_rules;
mod value_rules;

pub use declared::judge_types;
pub use fields::{field_fact, judge_field};
pub use heads::judge_head;
pub use name_table::NameTable;
pub use refusals::{at_element, refuse};
pub use value_rules::names_fraction;
