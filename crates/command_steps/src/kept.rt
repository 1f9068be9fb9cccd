/// What a run has done so far.
#[derive(Clone, Copy, Debug, PartialEq, Eq)]
pub struct Kept {
    /// How many items were answered.
    pub items: u64,
    /// How many of them were refused.
    pub refused: u64,
    /// How many of them were translated.
    pub translated: u64,
    /// How many parts were dropped from messages that were rewritten in another version.
    pub dropped: u64,
    /// How many parts were filled in there.
    pub filled: u64,
    /// The size of the items in the input, in bytes.
    pub bytes: u64,
}
