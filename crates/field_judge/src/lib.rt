//! Checks the fields of a tag-value text against the structure of a message, including groups of any depth: the first
//! refusal in the order of the text, and then in the order of the structure.
#![tactic(auto)]

mod counts;
mod field;
mod judge;
mod level;
mod missing;
mod pieces;
mod refused;
mod refusing;
mod runs;
mod slices;

pub use field::AppField;
pub use judge::judge_fields;
pub use level::{BackGroup, BackLevel, BackPart, BackRow, place_in};
pub use missing::{missing_field, part_places};
pub use pieces::piece_len;
pub use refused::Refused;
pub use refusing::first_refusal;
pub use runs::owned_len;
pub use slices::{field_at, front, level_at, rest_from};
