//! A message as a tree of its values: from its body, and back.
#![tactic(auto)]

mod blocks;
mod decoding;
mod encoding;
mod fills;
mod first_misfit;
mod fit;
mod puts;
mod rooms;
mod shape;
mod sizing;
mod values;

pub use decoding::{DecodeErr, decode};
pub use encoding::encode;
pub use flyweight_view::{FCode, Refusal};
pub use sbe_wire::NCode;
pub use sizing::{EncodeErr, body_size};
