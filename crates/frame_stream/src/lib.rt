//! Takes frames or lines from a source one by one, through one buffer that is allocated once.
//!
//! The frames are those of the FIX Simple Open Framing Header 1.0, as the crate `open_framing` reads them.
#![tactic(auto)]

mod held;
pub mod laws;
mod lines;
mod reading;
mod stream;
mod window;

pub use held::Ended;
pub use lines::{LineEnded, LineErr, LineStream, LineTaken};
pub use reading::Dry;
pub use stream::{FrameStream, LONGEST_FRAME, StreamErr, Taken};
pub use window::Window;
