//! Streams of tag-value messages without heads, as a command takes them: each item of the stream is a piece.
#![tactic(auto)]

pub mod laws;
