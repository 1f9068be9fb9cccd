//! What the bytes of a field say about its value (SBE 1.0, "Field encoding").
#![tactic(auto)]

mod elements;
mod numbers;
mod state;
mod texts;

pub use elements::element_in;
pub use numbers::number_in;
pub use state::{FieldState, state_in};
pub use texts::{before_zero, text_in};
