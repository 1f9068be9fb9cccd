/// Why bytes of a stream aren't a message.
#[derive(Clone, Copy, Debug, PartialEq, Eq)]
pub enum PCode {
    /// P01: no text begins here, whatever follows.
    Prefix,
    /// P02: the stream ends inside what may be a text.
    Ends,
    /// P03: a text begins here, but as many bytes as it states aren't a valid one.
    Text,
}
