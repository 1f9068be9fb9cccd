//! The bytes of values of any kind, including composites (SBE 1.0, "Field encoding" and "Composite encoding").
#![tactic(auto)]

mod error;
mod judge;
mod put;
mod writes;

pub use error::{FieldErr, ValueMisfit};
pub use judge::{fits_kind, judge_field};
pub use put::put_kind;
pub use writes::field_writes;
