use sbe_types::Kind;

/// How a value is checked and printed.
#[derive(Clone, Copy, Debug, PartialEq, Eq)]
pub enum Look {
    /// A single number of this primitive.
    I8,
    I16,
    I32,
    I64,
    U8,
    U16,
    U32,
    /// A char array without a character encoding.
    Text,
    /// An enum, by its kind.
    Enum,
    /// A set, by the bits of its choices.
    Set,
    /// Any other kind, by that kind.
    Other,
}

/// What a row stores of its kind.
#[derive(Clone, Copy, Debug, PartialEq, Eq)]
pub struct Quick {
    pub look: Look,
    /// Whether a number may be null.
    pub optional: bool,
    /// The null of a number; of a set, which has none, the bits of its choices, so that a row is no longer than without them.
    pub null: i64,
    /// The least number, or the least byte of a text.
    pub low: i64,
    /// The greatest number or byte.
    pub high: i64,
}

/// A value of a block.
#[derive(Drop)]
pub struct FlatRow {
    /// The offset of the value's first byte in the block.
    pub place: u32,
    /// The offset of its end.
    pub end: u32,
    pub quick: Quick,
    /// For each byte, 1 if it is a valid value or the null of an enum of one byte, and 0 otherwise. Empty for other
    /// kinds.
    pub valid: Vec<u8>,
    pub kind: Kind,
}

/// The values of a block in wire order, with composites flattened and constants left out.
#[derive(Drop)]
pub struct FlatRows {
    pub rows: Vec<FlatRow>,
}
