use lists::{Bytes, List};

/// An element of an integer array.
#[derive(Clone, Copy, Debug, PartialEq, Eq)]
pub enum Elem {
    Num(i128),
    Null,
}

pub type ElemList = List<Elem>;

/// The value of a field or a composite's member.
#[derive(Drop)]
pub enum Value {
    Num(i128),
    Null,
    Text(Bytes),
    Nums(ElemList),
    Enum(i128),
    /// The bits of a set.
    Set(u64),
    /// The values of a composite's members, in order.
    Comp(List<Value>),
    /// The value that the schema fixes.
    Const,
    /// The field doesn't exist at the message's version.
    Absent,
}

pub type ValueList = List<Value>;

/// A data part of a message.
#[derive(Drop)]
pub enum DataVal {
    Absent,
    Bytes(Bytes),
}

pub type DataValList = List<DataVal>;

/// The values of a level: of its fields, groups and data, in the schema's order.
#[cycle(block)]
#[derive(Drop)]
pub struct Block {
    pub fields: ValueList,
    pub groups: List<GroupVal>,
    pub parts: DataValList,
}

/// A group of a message.
#[cycle(block)]
#[derive(Drop)]
pub enum GroupVal {
    Absent,
    Entries(List<Block>),
}

pub type BlockList = List<Block>;

pub type GroupValList = List<GroupVal>;

/// A message: the number of its template in the schema, the version of its header, and its root.
#[derive(Drop)]
pub struct Msg {
    pub template: usize,
    pub version: u32,
    pub block: Block,
}
