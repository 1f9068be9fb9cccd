//! Prints bytes to a sink through a chunk of a fixed size.
#![tactic(auto)]

mod chunk;
mod printer;

pub use chunk::{CHUNK_BYTES, Chunk};
pub use printer::Printer;
