/// Which of two versions of a schema is the later one, for a message that is rewritten from one to the other.
#[derive(Clone, Copy, Debug, PartialEq, Eq)]
pub enum Way {
    /// The version that is written is later, or both are equal.
    Up,
    /// The version that is read is later.
    Down,
}
