//! A growable list, which contracts see as the list of its items.
#![tactic(auto)]

mod list;

pub use list::{List, NoMem};

/// Bytes, as the contents of a data part.
pub type Bytes = List<u8>;

/// The bytes of a name or a text.
pub type Text = List<u8>;
