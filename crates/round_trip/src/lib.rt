//! Messages that `tofix` translates to texts, and what `tosbe` makes of these texts. The crate has only laws.
#![tactic(auto)]

pub mod laws;
