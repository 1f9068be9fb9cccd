//! The bytes of numbers, and of the values of fields (SBE 1.0, "Field encoding").
#![tactic(auto)]

mod arrays;
mod fault;
mod judge;
mod leaf;
mod number;
mod puts;

pub use fault::{FieldCause, ValueFault};
pub use judge::value_judge;
pub use leaf::leaf_writes;
pub use number::{put_num, put_num_at};
pub use puts::put_value;
