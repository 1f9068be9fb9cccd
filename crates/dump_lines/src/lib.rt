//! The lines with which `dump` answers frames, and the schemas of its run.
#![tactic(auto)]

mod codes;
mod laws;
mod lines;
mod refused;
mod schemas;

pub use codes::encoding_of;
pub use laws::{each_frame_has_one_answer, faults_have_ways};
pub use lines::put_message;
pub use refused::{put_fault, put_refusal};
pub use schemas::Schemas;
