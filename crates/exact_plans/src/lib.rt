//! Whether the plan of a template writes each value in one form, and so that its end is found, with tags of one to nine digits.
#![tactic(auto)]

mod clear;
mod forms;
mod tagged;

pub use clear::are_clear;
pub use forms::is_exact;
pub use tagged::are_tagged;
