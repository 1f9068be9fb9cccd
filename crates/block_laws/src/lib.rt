//! Laws of the typed writer: a block in which every field was set is the block of their values.
#![tactic(auto)]

mod laws;

pub use laws::{
    a_constant_is_held, a_field_that_is_set_is_held, a_full_block_is_canonical,
    an_empty_block_holds_none,
};
