/// Why a body isn't a message, as `F01` to `F12`.
#[derive(Clone, Copy, Debug, PartialEq, Eq)]
pub enum FCode {
    /// `F01`: the body is shorter than the header.
    ShortHeader,
    /// `F02`: the header has the id of another schema.
    SchemaId,
    /// `F03`: no message has the header's template id.
    Template,
    /// `F04`: a block length is less than the end of the fields that its version has.
    BlockShort,
    /// `F05`: a part needs more bytes than remain.
    Truncated,
    /// `F06`: a number is neither in its range nor null.
    Range,
    /// `F07`: an enum's number isn't listed.
    EnumUnknown,
    /// `F08`: a set has a bit that isn't listed.
    SetUnknown,
    /// `F09`: a text has a byte outside its range.
    TextByte,
    /// `F10`: a group's count is out of range.
    Count,
    /// `F11`: a data part's length is out of range.
    Length,
    /// `F12`: there are bytes after the last part.
    Trailing,
}

/// Why a message can't be written, as `N01` to `N09`.
#[derive(Clone, Copy, Debug, PartialEq, Eq)]
pub enum NCode {
    /// `N01`: a number is out of range or is the null of an optional field, or a text is too long, or is the empty text
    /// of an optional field.
    Range,
    /// `N02`: an enum's number isn't listed.
    EnumUnknown,
    /// `N03`: a set has a bit that isn't listed.
    SetUnknown,
    /// `N04`: a text has a byte that isn't allowed in it.
    TextByte,
    /// `N05`: a value is of another kind, or an array or composite of another length.
    Kind,
    /// `N06`: a group has more or fewer entries than its count allows.
    Count,
    /// `N07`: a data part is longer or shorter than its length allows.
    Length,
    /// `N08`: the body exceeds the limit.
    Full,
    /// `N09`: the message doesn't have the shape of the schema.
    Shape,
}
