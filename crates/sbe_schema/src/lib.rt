//! Schema files: reads a file, which holds the elements and attributes of SBE 1.0 as JSON, into a tree, or reports the
//! first fault with its place.
#![tactic(auto)]

mod element_name;
mod form;
pub mod laws;
mod message;
mod schema;
mod schema_err;
mod types;

pub use schema::read_schema;
pub use schema_err::{SCode, SchemaErr};
