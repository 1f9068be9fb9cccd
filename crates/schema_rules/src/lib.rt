//! The rules that a schema has to meet, and the checked schema that an accepted one stands for. They are stated in
//! `specs/`; the code consists of the types that they cite.
#![tactic(auto)]

mod codes;
mod encodings;
mod facts;
mod levels;
mod numbers;
pub mod worked;

pub use codes::{CCode, CheckErr, PartClass};
pub use encodings::Encoding;
pub use facts::Fact;
pub use levels::{LevelFacts, LevelScope, PartHead};
pub use numbers::Numbers;
