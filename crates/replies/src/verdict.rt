/// What became of an item.
#[derive(Clone, Copy, Debug, PartialEq, Eq)]
pub enum Verdict {
    Answered,
    Refused,
    Translated,
    /// Rewritten in another version of its schema, with the numbers of parts that were dropped and filled in.
    Regraded { dropped: u64, filled: u64 },
}
