//! Dimensions of repeating groups, as they lie in a body.
#![tactic(auto)]

mod dim;
mod put;
pub mod worked;

pub use dim::{Dim, DimErr, read_dim, read_dim_row};
pub use put::{put_dim, put_dim_row};
