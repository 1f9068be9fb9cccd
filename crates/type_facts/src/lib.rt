//! What the declared types of a schema mean: what a name stands for, which numbers and characters it is based on, and
//! its width, leaves, height and chains (SBE 1.0, "Message schema").
#![tactic(auto)]

mod chains;
mod declarations;
mod encodings;
mod facts;
mod members;
mod numbers;
mod types;
mod value_lists;
mod value_refs;

pub use declarations::Declarations;
pub use encodings::{effective, encoding_named, high_of, integral, leaf_of, low_of};
pub use facts::{
    NO_MEMBERS, UNKNOWN, enum_fact, offset_of, past, set_fact, type_fact, with_member,
};
pub use members::{member_name, member_since};
pub use numbers::{bit_number, is_number_of, number_in, value_number};
pub use types::{Types, type_name};
pub use value_lists::{choices, valid_value, valid_values};
pub use value_refs::{referred, refers_outside, refers_to_none};
