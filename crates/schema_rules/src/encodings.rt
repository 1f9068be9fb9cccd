use sbe_types::{Leaf, Presence};

/// A `type` that an enum or a set is based on: its leaf as if it were required, and the presence that it states.
#[derive(Clone, Copy, Debug, PartialEq, Eq)]
pub struct Encoding {
    pub leaf: Leaf,
    pub presence: Option<Presence>,
}
