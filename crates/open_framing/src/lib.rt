//! The heads of frames, and the definitions of how a stream is cut into frames or lines.
//!
//! The FIX Simple Open Framing Header 1.0 puts a message length and an encoding type before each message, so that a
//! reader knows where a message ends and how to read it.
#![tactic(auto)]

mod head;
pub mod laws;
mod line;

pub use head::{HEAD_BYTES, Head, HeadErr, SBE_BIG, SBE_LITTLE, TAG_VALUE, put_head, read_head};
pub use line::{LINE_END, LONGEST_LINE};
