//! What a command does with its input, whatever it answers: one step after another over frames, over lines, or a single
//! job.
#![tactic(auto)]

mod command;
mod end;
mod frames;
mod kept;
mod lines;
mod step;
mod whole;

pub use command::{FrameCommand, LineCommand, WholeCommand};
pub use end::{Stop, tell};
pub use frames::FrameWork;
pub use kept::Kept;
pub use lines::LineWork;
pub use step::{Step, Tally, count, done, end_without_line};
pub use whole::WholeWork;
