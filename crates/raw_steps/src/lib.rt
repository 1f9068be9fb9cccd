//! Streams of tag-value messages without heads, cut into frames: a step takes the next item and writes its answer.
#![tactic(auto)]

mod framer;
mod lines;
mod work;

pub use framer::RawFramer;
pub use work::RawWork;
