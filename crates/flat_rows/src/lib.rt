//! The values of a block as a flat table in wire order, with composites flattened: each at its offset, with what is
//! needed to check it quickly.
#![tactic(auto)]

mod bytes;
mod judge;
mod laws;
mod make;
mod places;
mod quick;
mod rows;
mod runs;
mod worked;

pub use judge::{fits, is_none, number_in, shows_all};
pub use laws::{values_lie_in_the_block, values_that_show_are_a_block};
pub use make::{flat_rows_of, row_of};
pub use places::{begin_of, end_after, end_of, width_of};
pub use rows::{FlatRow, FlatRows, Look, Quick};
pub use runs::first_set;
pub use worked::{no_fields_have_no_values, valid_bytes_of_worked_enums, values_of_worked_fields};
