//! What is known of the first misfit of a message, by the definitions of the wire: where its path leads, and how many
//! bytes would be needed. No code runs here: the laws are functions without a body.
#![tactic(auto)]

pub mod laws;
