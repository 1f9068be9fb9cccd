//! The elements of mapping files in JSON, after FIX Orchestra. An element whose name is unknown at its place is
//! skipped.
#![tactic(auto)]

mod element_name;
mod fields;
mod form;
mod groups;
mod members;
mod messages;
mod references;
mod repository;

pub use form::{ID_LIMIT, TEXT_LIMIT};
pub use repository::read_repository;
