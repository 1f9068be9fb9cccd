use crate::PartClass;

/// A level that is being checked.
#[derive(Clone, Copy, Debug, PartialEq, Eq)]
pub struct LevelScope {
    /// The schema's version.
    pub version: u32,
    /// How many groups are around it. More than seven count as seven.
    pub around: u8,
    /// The first version that has it on the wire.
    pub since: u32,
}

/// What is known of the parts of a level that precede another.
#[derive(Clone, Copy, Debug, PartialEq, Eq)]
pub struct LevelFacts {
    /// The class of the last part.
    pub last: PartClass,
    /// The end of the fields.
    pub reached: u64,
    /// The end of those fields that are on the wire whenever the level is.
    pub floor: u64,
    /// The greatest effective since of the fields, except for constants.
    pub fields_since: u32,
    /// The greatest effective since of the groups.
    pub groups_since: u32,
    /// The greatest effective since of the data.
    pub data_since: u32,
    /// A group or data is on the wire whenever the level is.
    pub alive: bool,
}

/// What the rules for every part need to know of one, apart from its name.
#[derive(Clone, Copy, Debug, PartialEq, Eq)]
pub struct PartHead {
    pub class: PartClass,
    pub since: u32,
    /// It is a constant field.
    pub is_fixed: bool,
}
