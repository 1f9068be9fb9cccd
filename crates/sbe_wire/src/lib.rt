//! The definitions of the wire: how a message lies in a body, what can be written, and what the first fault of a body
//! is. They are stated in `specs/`; the code consists of the codes that they cite, of the mode in which a body is
//! read, and of the numbers of a header or a dimension.
#![tactic(auto)]

mod codes;
mod counters;
pub mod laws;
mod mode;
pub mod worked;

pub use codes::{FCode, NCode};
pub use counters::Counters;
pub use mode::Mode;
