//! Numbers as bytes: the base-256 digits of a number, most or least significant first.
//!
//! The definitions are in `specs/`; `laws` lists what holds of them.
#![tactic(auto)]

pub mod laws;
