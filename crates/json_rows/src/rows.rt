use flat_rows::FlatRow;

/// The names of an enum of one byte, looked up by byte.
#[derive(Drop)]
pub struct Codes {
    /// For each byte which of the texts is its name, counted from 1, or 0 if none is stored. Empty if no byte has a
    /// stored text.
    pub index: Vec<u8>,
    /// The texts, each of 16 bytes: a name between quotes, spaces after it, and in the last byte the number of bytes of
    /// the name with its quotes.
    pub texts: Vec<u8>,
}

/// A value of a block, and what is the same in each line: the bytes before it, and the names of an enum.
#[derive(Drop)]
pub struct TextRow {
    /// The offset in the table's bytes of the bytes before the value.
    pub start: u32,
    /// The offset of their end.
    pub end: u32,
    pub value: FlatRow,
    pub codes: Codes,
}

/// The values of a block in wire order, and the text that is the same in each line.
#[derive(Drop)]
pub struct TextRows {
    /// The bytes before each value, one after another, and then those after the last one.
    pub bytes: Vec<u8>,
    pub rows: Vec<TextRow>,
    /// The offset of the bytes after the last value.
    pub last: u32,
}
