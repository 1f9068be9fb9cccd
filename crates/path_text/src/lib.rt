//! The texts of paths: the path to a part of a message, as it is printed.
#![tactic(auto)]

mod paths;

pub use paths::put_path;
