//! Tag-value messages that follow one another in a stream, without framing heads.
#![tactic(auto)]

mod claim;
mod code;
mod items;
pub mod laws;
mod mark;
mod soh;
mod step;
mod stream;
mod taken;
mod verdict;

pub use code::PCode;
pub use items::LEAST_FRAME;
pub use mark::MARK;
pub use stream::RawStream;
pub use taken::{RawErr, RawTaken};
