//! Whether the bytes of a body are the canonical ones of the message that lies in it, in one walk by the layout's rows.
#![tactic(auto)]

mod blocks;
mod heads;
mod names;
mod places;
mod walk;
mod zeros;

pub use walk::is_clean_body;
