//! The table of kinds and datatypes: the rule by which a part of a template and the fields of a datatype are translated
//! to each other, with everything that their texts and bytes need.
#![tactic(auto)]

mod codes;
mod composites;
mod constants;
mod datatype;
mod enums;
mod leaves;
mod rule;
mod table;

pub use datatype::{CodeTable, Datatype};
pub use rule::{ConstRule, EnumRule, Epoch, FieldRule, MonthLeaves, Unit};
pub use table::{data_rule, field_rule};
