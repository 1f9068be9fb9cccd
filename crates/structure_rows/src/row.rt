/// A place of a structure: a field, or a group, which is followed by the rows of its entries.
#[derive(Clone, Copy, Debug, PartialEq, Eq)]
pub struct PlaceRow {
    /// The tag of the field, or of the group's count.
    pub tag: u32,
    /// How many rows a group's entries have.
    pub entries: Option<u32>,
}
