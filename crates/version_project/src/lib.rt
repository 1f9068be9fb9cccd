//! Two versions of a schema: whether the later one extends the earlier one, and what the earlier one reads of a message
//! of the later one.
#![tactic(auto)]

mod added;
mod comparing;
mod differ;
mod known;
mod messages;
mod plain_entries;
mod plain_messages;
mod project_blocks;
mod project_messages;

pub use comparing::extends;
pub use messages::{knows, plain, project};
pub use version_laws::{Compat, Reason};
