//! The texts of the values of fields: the rows of a plan, each made from a rule of the table of kinds and datatypes.
#![tactic(auto)]

mod at;
mod bytes;
mod codes;
mod composite;
mod decimals;
mod face;
mod fixed;
mod fronts;
mod making;
mod moments;
mod numbers;
mod quick;
mod row;
mod seen;
mod sets;
mod shown;
mod small;
mod spelling;

pub use face::NumberFace;
pub use row::{ConstText, TextRule, ValueText};
pub use sets::SetSpelling;
pub use spelling::Spelling;
