/// The numbers of a header or of a dimension (SBE 1.0, "Message structure" and "Repeating group encoding").
#[derive(Clone, Copy)]
pub enum Counters {
    /// Those of a message's header.
    Header {
        block: u32,
        template: u32,
        schema: u32,
        version: u32,
    },
    /// Those of a group's dimension.
    Dimension {
        block: u32,
        count: u32,
    },
}
