use crate::{Order, Presence, Primitive};
use lists::{List, Text};

/// The value of a `primitiveType`: a character or an integer, or one of the two floating-point types, which no checked
/// schema contains (SBE 1.0, "Encoding: primitive data types").
#[derive(Clone, Copy, Debug, PartialEq, Eq)]
pub enum PrimitiveType {
    Integral(Primitive),
    Float,
    Double,
}

/// A `valueRef`: the name of an enum, a dot, and the name of one of its valid values.
#[derive(Drop)]
pub struct ValueRef {
    pub enum_name: Text,
    pub value_name: Text,
}

/// A `messageSchema`: a schema as its file states it, before it is checked.
#[derive(Drop)]
pub struct Schema {
    pub id: u32,
    pub version: u32,
    pub package: Text,
    pub byte_order: Order,
    /// The name of the composite that is the message header.
    pub header_type: Text,
    pub children: List<SchemaItem>,
}

/// A child of a `messageSchema`.
#[derive(Drop)]
pub enum SchemaItem {
    Types(TypesEl),
    Message(MessageEl),
}

/// A `types` element, which declares types.
#[derive(Drop)]
pub struct TypesEl {
    pub children: List<TypesItem>,
}

/// A declared type. Its `offset` is `None` and its `since_version` 0, since only members of composites have them.
#[derive(Drop)]
pub enum TypesItem {
    Type(TypeEl),
    Composite(CompositeEl),
    Enum(EnumEl),
    Set(SetEl),
}

/// A `type`: a primitive, or an array of them.
#[derive(Drop)]
pub struct TypeEl {
    pub name: Text,
    pub primitive_type: PrimitiveType,
    /// How many primitives it has.
    pub length: u32,
    pub presence: Option<Presence>,
    pub null_value: Option<i128>,
    pub min_value: Option<i128>,
    pub max_value: Option<i128>,
    pub character_encoding: Option<Text>,
    pub value_ref: Option<ValueRef>,
    /// The value of a constant.
    pub text: Option<Text>,
    /// For a member: its offset from the composite's first byte.
    pub offset: Option<u32>,
    pub since_version: u32,
}

/// A `composite`, declared or nested in another.
#[cycle(composite)]
#[derive(Drop)]
pub struct CompositeEl {
    pub name: Text,
    /// For a member: its offset from the first byte of the composite around it.
    pub offset: Option<u32>,
    pub since_version: u32,
    pub children: List<MemberItem>,
}

/// A member of a composite.
#[cycle(composite)]
#[derive(Drop)]
pub enum MemberItem {
    Type(TypeEl),
    Enum(EnumEl),
    Set(SetEl),
    Composite(CompositeEl),
    Ref(RefEl),
}

/// An `enum`: a number that is one of its valid values.
#[derive(Drop)]
pub struct EnumEl {
    pub name: Text,
    /// The name of the type of its number.
    pub encoding_type: Text,
    /// For a member: its offset from the composite's first byte.
    pub offset: Option<u32>,
    pub since_version: u32,
    pub children: List<ValidValueEl>,
}

/// A `validValue` of an enum: its name, and its number or character as text.
#[derive(Drop)]
pub struct ValidValueEl {
    pub name: Text,
    pub text: Text,
}

/// A `set`: a number whose bits are its choices.
#[derive(Drop)]
pub struct SetEl {
    pub name: Text,
    /// The name of the type of its number.
    pub encoding_type: Text,
    /// For a member: its offset from the composite's first byte.
    pub offset: Option<u32>,
    pub since_version: u32,
    pub children: List<ChoiceEl>,
}

/// A `choice` of a set: its name, and its bit as text.
#[derive(Drop)]
pub struct ChoiceEl {
    pub name: Text,
    pub text: Text,
}

/// A `ref`: a member of a composite whose type is declared elsewhere.
#[derive(Drop)]
pub struct RefEl {
    pub name: Text,
    pub type_name: Text,
    /// Its offset from the composite's first byte.
    pub offset: Option<u32>,
    pub since_version: u32,
}

/// A `message`: a template.
#[derive(Drop)]
pub struct MessageEl {
    pub name: Text,
    pub id: u32,
    pub semantic_type: Text,
    pub since_version: u32,
    /// The length of its block in bytes, if the schema states it.
    pub block_length: Option<u32>,
    pub children: List<PartItem>,
}

/// A part of a message or a group.
#[cycle(part)]
#[derive(Drop)]
pub enum PartItem {
    Field(FieldEl),
    Group(GroupEl),
    Data(DataEl),
}

/// A `field`: a value in the block of a message or an entry.
#[derive(Drop)]
pub struct FieldEl {
    pub name: Text,
    pub id: u32,
    pub type_name: Text,
    pub since_version: u32,
    pub presence: Option<Presence>,
    /// Its offset from the block's first byte.
    pub offset: Option<u32>,
    pub value_ref: Option<ValueRef>,
}

/// A `group`: repeated entries.
#[cycle(part)]
#[derive(Drop)]
pub struct GroupEl {
    pub name: Text,
    pub id: u32,
    /// The name of the composite that holds the length of a block and the number of entries.
    pub dimension_type: Text,
    pub since_version: u32,
    /// The length of an entry's block in bytes, if the schema states it.
    pub block_length: Option<u32>,
    pub children: List<PartItem>,
}

/// A `data` element: a length, then that many bytes.
#[derive(Drop)]
pub struct DataEl {
    pub name: Text,
    pub id: u32,
    /// The name of the composite that holds the length and the bytes.
    pub type_name: Text,
    pub since_version: u32,
}
