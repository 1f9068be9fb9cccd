//! The files of mappings: one is loaded and checked, or refused.
#![tactic(auto)]

mod map_file;

pub use map_file::load_map;
