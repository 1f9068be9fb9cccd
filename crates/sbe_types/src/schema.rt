use crate::{Kind, Leaf, Member, MemberList, Order};
use lists::{List, Text};

/// The members of the message header: blockLength, templateId, schemaId and version, in any order.
#[derive(Drop)]
pub struct Header {
    pub members: MemberList,
}

/// A field of a block. Its offset counts from the block's first byte.
#[derive(Drop)]
pub struct Field {
    pub name: Text,
    pub id: u32,
    /// The first version that has it on the wire: the greatest sinceVersion of itself and of the groups around it.
    pub since: u32,
    pub offset: Option<u32>,
    pub kind: Kind,
}

pub type FieldList = List<Field>;

/// A variable-length data part: a length number, then that many bytes.
#[derive(Drop)]
pub struct DataField {
    pub name: Text,
    pub id: u32,
    /// The first version that has it on the wire.
    pub since: u32,
    /// The type of the length number.
    pub length: Leaf,
}

pub type DataFieldList = List<DataField>;

/// A repeating group: the members of its dimension, and the level of its entries.
#[cycle(level)]
#[derive(Drop)]
pub struct Group {
    pub dim: List<Member>,
    pub level: Level,
}

/// A message's root, or the entries of a group: a block of fields, then groups, then data.
#[cycle(level)]
#[derive(Drop)]
pub struct Level {
    pub name: Text,
    pub id: u32,
    pub semantic: Text,
    /// The first version that has it on the wire.
    pub since: u32,
    /// The block length that is written, in bytes.
    pub block_length: u32,
    pub fields: FieldList,
    pub groups: List<Group>,
    pub parts: DataFieldList,
}

pub type GroupList = List<Group>;

pub type LevelList = List<Level>;

/// A checked schema: every type name is resolved. The definitions of the wire are stated over it.
#[derive(Drop)]
pub struct WireSchema {
    pub id: u32,
    pub version: u32,
    pub order: Order,
    pub header: Header,
    /// The roots of the messages, in the schema's order.
    pub messages: LevelList,
}
