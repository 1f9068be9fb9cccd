ghost use Rattle.std.specs.Prelude.{◌≡◌};
ghost use Rattle.layout_tables.specs.Rowed.{rows_floor};

use flat_rows::FlatRows;
use sbe_types::Leaf;
use std::collections::BTreeMap;

/// A number of a header or a dimension: its offset from the composite's first byte, and its type.
#[derive(Clone, Copy)]
pub struct SpotRow {
    pub place: u32,
    pub leaf: Leaf,
}

/// A dimension: how many bytes it has, and its two numbers (SBE 1.0, "Repeating group encoding").
#[derive(Clone, Copy)]
pub struct DimRow {
    pub width: u32,
    /// The number blockLength.
    pub block: SpotRow,
    /// The number numInGroup.
    pub count: SpotRow,
}

/// The message header: how many bytes it has, and its four numbers (SBE 1.0, "Message structure").
#[derive(Clone, Copy)]
pub struct HeaderRow {
    pub width: u32,
    /// The number blockLength.
    pub block: SpotRow,
    /// The number templateId.
    pub template: SpotRow,
    /// The number schemaId.
    pub schema: SpotRow,
    /// The number version.
    pub version: SpotRow,
    /// These four have two bytes each and follow one another from the first byte on, as in the standard's own header.
    pub is_usual: bool,
}

/// A field: the first version that has it, and its offset in the block.
#[derive(Clone, Copy)]
pub struct FieldRow {
    pub since: u32,
    /// Its offset. Meaningless for a constant.
    pub place: u32,
    /// The end of the fields up to and including this one.
    pub end: u32,
    /// A constant takes no bytes.
    pub is_constant: bool,
}

/// A data part: the first version that has it, and the type of its length.
#[derive(Clone, Copy)]
pub struct PartRow {
    pub since: u32,
    pub length: Leaf,
}

/// The location of a data part: the number of its level, and its number among the level's data.
#[derive(Clone, Copy)]
pub struct PartPlace {
    pub level: u32,
    pub part: u32,
}

/// A level. The levels of its groups follow directly, each with those of its own groups.
#[derive(Drop)]
pub struct LevelRow {
    /// The number of its message.
    pub template: usize,
    pub since: u32,
    /// The block length that is written, in bytes.
    pub block: u32,
    /// The greatest version at which one of its fields first exists.
    pub newest: u32,
    /// The floor from that version on.
    pub floor: u32,
    /// How many groups it has.
    pub groups: usize,
    /// The number of the level after it and all levels of its groups.
    pub end: usize,
    /// The dimension before its entries. A root has none.
    pub dim: Option<DimRow>,
    pub fields: Vec<FieldRow>,
    pub parts: Vec<PartRow>,
    /// The values of its block, with composites flattened, in wire order.
    pub flat: FlatRows,
}

/// The tables that a layout keeps in addition to the schema.
#[derive(Drop)]
pub struct Tables {
    pub header: HeaderRow,
    pub levels: Vec<LevelRow>,
    /// The levels of the messages' roots.
    pub roots: Vec<usize>,
    /// The messages by their ids.
    pub ids: BTreeMap<u32, usize>,
    /// The number of each level's first data part.
    pub firsts: Vec<usize>,
    /// The location of each data part of the schema.
    pub places: Vec<PartPlace>,
}

/// The floor, computed from the rows: the end of the last field that the version has and that isn't a constant.
pub fn floor_of(version: u32, fields: &[FieldRow]) -> u32
    ensures { result ≡ rows_floor version 0 fields.now }
{
    let mut floor = 0;
    for row in fields {
        if row.since <= version && !row.is_constant {
            floor = row.end;
        }
    }
    floor
}
