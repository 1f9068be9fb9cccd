//! What holds of every checked schema: the facts that the layers above may rely on, and the laws that establish them.
//! They are stated in `specs/`.
#![tactic(auto)]

pub mod kinds;
pub mod laws;
pub mod worked;
