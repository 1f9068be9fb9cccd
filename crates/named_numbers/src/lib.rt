//! Valid values and choices looked up by number, and the bits of a set (SBE 1.0, "Field encoding").
#![tactic(auto)]

mod choices;

pub use choices::{are_listed, bit_of, is_listed};
