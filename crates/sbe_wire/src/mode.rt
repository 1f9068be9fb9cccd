use sbe_types::Order;

/// How the values of a body are read.
#[derive(Clone, Copy)]
pub struct Mode {
    pub order: Order,
    /// The schema knows every part of the message.
    pub known: bool,
    /// The version at which it is read.
    pub version: u32,
}
