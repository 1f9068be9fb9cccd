//! What the bridge uses of a mapping file, as tables: the datatypes of its fields by tag, the tags of its header and of
//! its length fields, and the structures of its messages by MsgType.
#![tactic(auto)]

mod datatypes;
pub mod laws;
mod messages;
mod tags;

pub use datatypes::DatatypeTable;
pub use messages::MessageTable;
pub use tags::TagTable;
