/// What the rules need to know of a type where it is used. The numbers saturate at 4,294,967,296.
#[derive(Clone, Copy, Debug, PartialEq, Eq)]
pub struct Fact {
    /// It is a constant and takes no bytes.
    pub is_fixed: bool,
    /// How many bytes it takes.
    pub width: u64,
    /// How many members it has in all that aren't composites.
    pub leaves: u64,
    /// How deeply composites are nested in it, itself included.
    pub height: u64,
    /// It contains a member of length 0.
    pub holds_empty: bool,
}
