//! Reads the values of a message's fields from JSON data. A refusal of a line has a code and the place of what is
//! wrong.
#![tactic(auto)]

mod choices;
mod kinds;
pub mod laws;
mod leaves;
mod names;
mod objects;
mod refusals;
mod texts;

pub use kinds::read_value;
pub use names::{Names, name_of};
pub use objects::{at_item, find_in, part, refuse_unknown};
pub use refusals::{JCode, LineFault, inside, refuse};
pub use texts::read_bytes;
