//! Messages that are written as a given text: each is the one that the text is translated to. The crate has only laws.
#![tactic(auto)]

pub mod laws;
