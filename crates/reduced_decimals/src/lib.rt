//! The reduced form of decimals: the mantissa without the zeros at its end. A text is read in this form.
#![tactic(auto)]

mod reduced;

pub use reduced::{Reduced, reduced_of};
