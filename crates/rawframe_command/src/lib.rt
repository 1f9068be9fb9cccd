//! The command `rawframe`: the mapping of its file, by whose data fields a stream of texts is cut into frames.
#![tactic(auto)]

mod rawframe;
mod rows;

pub use rawframe::load_rawframe;
