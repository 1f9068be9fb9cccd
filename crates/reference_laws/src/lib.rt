//! What the definitions say of references as a whole, in the plainest words. No code runs here: the statements are in
//! `specs/`, and their laws are functions without a body.
#![tactic(auto)]

mod laws;

pub use laws::endless_is_to_meet_twice;
