//! The fields of a block as pieces of a line of JSON: the text that is the same in each line, row by row next to the
//! table of their values.
#![tactic(auto)]

mod codes;
mod laws;
mod make;
mod rows;
mod texts;
mod worked;

pub use codes::text_of_code;
pub use laws::pieces_have_the_values;
pub use make::text_rows_of;
pub use rows::{Codes, TextRow, TextRows};
pub use worked::{names_of_worked_bytes, no_fields_are_a_bracket, pieces_of_worked_fields};
