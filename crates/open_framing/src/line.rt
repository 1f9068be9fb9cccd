/// The most bytes that a line may have, without its line end. The limit is this project's profile.
pub const LONGEST_LINE: usize = 1_048_576;

/// The byte that ends a line.
pub const LINE_END: u8 = 0x0a;
