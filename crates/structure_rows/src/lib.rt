//! The structure of a message as rows, one for each place, built from what the message refers to.
#![tactic(auto)]

mod row;
mod walk;

pub use row::PlaceRow;
pub use walk::structure_rows;
