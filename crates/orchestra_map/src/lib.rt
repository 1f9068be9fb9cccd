//! Mapping files: FIX Orchestra repositories in JSON. A file is read and checked as a whole, or refused with the first
//! rule that it breaks.
#![tactic(auto)]

mod data_fields;
mod headers;
mod reading;

pub use data_fields::data_tags;
pub use headers::header_tags;
pub use map_types::{
    CodeEl, CodeSetEl, CodeSetsEl, ComponentEl, ComponentRefEl, ComponentsEl, DatatypeEl,
    DatatypesEl, FieldEl, FieldRefEl, FieldsEl, GroupEl, GroupItem, GroupRefEl, GroupsEl, MCode,
    MapErr, MessageEl, MessagesEl, NumInGroupEl, RefItem, Repository, RepositoryItem, StructureEl,
};
pub use reading::read_map;
