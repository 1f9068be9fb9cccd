//! What it means for a later version of a schema to extend an earlier one, what each of the two reads of the other's
//! messages, and the laws that it is read correctly. No code runs here: the definitions are in `specs/`, and the laws
//! are functions without a body.
#![tactic(auto)]

mod difference;
pub mod laws;
pub mod worked;

pub use difference::{Compat, Difference, Reason};
