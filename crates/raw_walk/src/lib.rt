//! Judges texts of the FIX tag=value encoding that lie in one another's bytes, without reading these bytes anew for each
//! text.
//!
//! [`Recall`] remembers sums of blocks of bytes and where long values end, so that a text's sum is made of blocks and a
//! long value isn't searched again for each text that has it.
#![tactic(auto)]

mod ends;
mod recall;
mod scan;
mod sums;
mod walk;

pub use recall::Recall;
pub use scan::SOH;
