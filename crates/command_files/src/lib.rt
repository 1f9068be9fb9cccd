//! The files of a command, and the result of loading them.
#![tactic(auto)]
