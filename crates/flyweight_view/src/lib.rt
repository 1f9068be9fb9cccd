//! Validates a body once, and lends its parts.
#![tactic(auto)]

mod block;
mod by_table;
mod ends;
mod entries;
mod groups;
mod parts;
mod plan;
mod ranges;
mod values;
mod view;

pub use block::BlockView;
pub use body_walk::{LastRefusal, Refusal};
pub use by_table::TableBlock;
pub use entries::EntriesView;
pub use field_values::FieldState;
pub use groups::GroupsView;
pub use parts::PartsView;
pub use sbe_wire::FCode;
pub use values::FieldBytes;
pub use view::{MsgView, look, validate};
