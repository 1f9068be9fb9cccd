//! Looks up the parts of a schema by their names, and single values of a message by their places. A name leads to a
//! number, steps lead from the root to an entry, and a place there has a number, a text, a state or the bytes of data.
//! Nothing here takes memory.
#![tactic(auto)]

mod entry_fields;
mod parts;
mod places;
mod values;

pub use entry_fields::{EntryField, EntryNames, find_field};
pub use parts::{Part, Sort, find_part};
pub use places::{FieldPlace, Step, message_data, message_number, message_state, message_text};
pub use values::{composite_of, number_of};
