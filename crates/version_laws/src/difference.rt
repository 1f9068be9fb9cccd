use lists::Text;

/// In what respect two versions of a schema differ.
#[derive(Clone, Copy, Debug, PartialEq, Eq)]
pub enum Reason {
    /// The schemas' ids.
    Id,
    /// The byte orders.
    ByteOrder,
    /// The members, types or offsets of the message header.
    Header,
    /// The later schema's version is less than the earlier one's.
    Version,
    /// The later schema has no message with that id, or it has another name.
    Message,
    /// The next field, group or data is missing, has another name, or is an extra one.
    Part,
    /// The first version in which the part is effective.
    Since,
    /// The offset of the field, or of a member of its composite.
    Place,
    /// The type, including that of a group's dimension or of a data part's length.
    Kind,
}

/// The first difference between two versions of a schema.
#[derive(Drop)]
pub struct Difference {
    /// The names from the message down to the part, separated by dots; empty for the schemas themselves.
    pub path: Text,
    /// What differs there.
    pub reason: Reason,
}

/// Whether readers and writers of two versions of a schema understand each other.
#[derive(Drop)]
pub enum Compat {
    /// The later schema reads the earlier one's messages, and the earlier one reads the parts it knows of the later
    /// one's messages.
    TwoWay,
    /// The later schema reads the earlier one's messages. The earlier one may misread messages of the later one: this
    /// is the path of the first added group or data that it can't skip.
    OneWay(Text),
    /// The later schema doesn't extend the earlier one: the path of the first difference, and why.
    No(Text, Reason),
}
