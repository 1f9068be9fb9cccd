//! Variable-length data, as they lie in a body.
#![tactic(auto)]

mod data;
mod put;
pub mod worked;

pub use data::{DataErr, read_data, read_data_of, standing_data};
pub use put::{PutDataErr, put_data, put_data_of};
