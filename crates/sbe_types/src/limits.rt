/// The most bytes that a name may have.
pub const NAME_LIMIT: usize = 64;

/// The most primitives that a type may have.
pub const LENGTH_LIMIT: u32 = 65_535;

/// The largest offset, and the greatest length of a block or a composite.
pub const PLACE_LIMIT: u32 = 1_048_576;

/// The most members of a composite.
pub const MEMBER_LIMIT: usize = 256;

/// The most valid values of an enum.
pub const VALUE_LIMIT: usize = 1024;

/// The most fields, groups and data together that a message or a group's entries may have.
pub const PART_LIMIT: usize = 256;

/// The most types that a schema declares.
pub const TYPE_LIMIT: usize = 1024;

/// The most messages of a schema.
pub const MESSAGE_LIMIT: usize = 512;
