//! JSON texts as trees: the data of a text (RFC 8259), borrowed from the text.
#![tactic(auto)]

mod data;
mod lookup;
mod number;
mod reading;

pub use data::{Json, Pair};
pub use lookup::find;
pub use number::Number;
pub use reading::{JsonFault, JsonSpace};
