//! The values of the texts of fields: the rows of a plan, each made from a rule of the table of kinds and datatypes.
//! Reading a text allocates nothing.
#![tactic(auto)]

mod decimals;
mod fixed;
mod given;
mod making;
mod missing;
mod moments;
mod months;
mod numbers;
mod reading;
mod row;
mod value;

pub use reading::Reading;
pub use row::{ConstValue, TextValue};
pub use value::{Misread, ReadValue};
