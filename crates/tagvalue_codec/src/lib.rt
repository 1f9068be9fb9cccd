//! Messages of the FIX tag=value encoding.
//!
//! A text is `8=`, a value, SOH, `9=`, digits, SOH, the body, and `10=`, three digits, SOH. The body is fields, the
//! first of which is 35. `read_fix` fills a table with the ranges of a text's fields in one pass; `FixWriter` writes a
//! text with its BodyLength and its CheckSum.
#![tactic(auto)]

mod data_tags;
mod digits;
mod framed;
pub mod laws;
mod read;
mod room;
mod scan;
mod table;
pub mod worked;
mod write;

pub use data_tags::{DataTags, Pair, Role};
pub use read::{FixFault, TCode, read_fix};
pub use room::TEXT_LIMIT;
pub use table::{FIELD_LIMIT, FieldTable, FixField};
pub use write::{FixWriter, Full, Phase};
