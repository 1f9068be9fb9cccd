//! Writes a message in wire order, through states that can't be misused.
#![tactic(auto)]

mod buffer;
mod counters;
mod empty;
mod fields;
mod marks;
mod room;
mod stack;
mod states;
mod tail;

pub use buffer::FrameBuf;
pub use kind_bytes::FieldErr;
pub use room::Full;
pub use stack::{Frame, OPEN_LIMIT};
pub use states::{EntriesW, FieldsW, NextPart, StartErr, TailErr, TailW, Undone, start};
