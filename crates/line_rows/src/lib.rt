//! What a line of JSON holds, computed on small lines. No code runs here: each row is a law whose proof is computation.
#![tactic(auto)]

pub mod worked;
