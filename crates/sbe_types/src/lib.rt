//! The types of schemas, before and after checking, and of messages, and the numbers that bytes encode.
#![tactic(auto)]

mod copy;
mod kind;
pub mod laws;
mod leaf;
mod limits;
mod message;
mod message_copy;
mod message_same;
mod number;
mod path;
mod schema;
mod trail;
mod tree;

pub use kind::{
    ConstValue, Kind, Leaf, LeafShape, Member, MemberList, Named, NamedList, Order, Presence, Prim,
    Primitive,
};
pub use leaf::{LeafCause, LeafFault, leaf_judge, leaf_reads};
pub use limits::{
    LENGTH_LIMIT, MEMBER_LIMIT, MESSAGE_LIMIT, NAME_LIMIT, PART_LIMIT, PLACE_LIMIT, TYPE_LIMIT,
    VALUE_LIMIT,
};
pub use lists::{Bytes, List, NoMem, Text};
pub use message::{
    Block, BlockList, DataVal, DataValList, Elem, ElemList, GroupVal, GroupValList, Msg, Value,
    ValueList,
};
pub use number::get_num;
pub use path::{Path, Step};
pub use schema::{
    DataField, DataFieldList, Field, FieldList, Group, GroupList, Header, Level, LevelList,
    WireSchema,
};
pub use trail::Trail;
pub use tree::{
    ChoiceEl, CompositeEl, DataEl, EnumEl, FieldEl, GroupEl, MemberItem, MessageEl, PartItem,
    PrimitiveType, RefEl, Schema, SchemaItem, SetEl, TypeEl, TypesEl, TypesItem, ValidValueEl,
    ValueRef,
};
