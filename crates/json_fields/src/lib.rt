//! The values that the bytes of fields encode, as JSON.
#![tactic(auto)]

mod by_table;
mod kinds;

pub use by_table::put_rows;
pub use kinds::put_shown;
