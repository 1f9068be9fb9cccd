//! Mapping files as a tree: the elements of a FIX Orchestra repository that make up a mapping, and the codes of its
//! refusals.
#![tactic(auto)]

mod codes;
mod tree;

pub use codes::{MCode, MapErr};
pub use tree::{
    CodeEl, CodeSetEl, CodeSetsEl, ComponentEl, ComponentRefEl, ComponentsEl, DatatypeEl,
    DatatypesEl, FieldEl, FieldRefEl, FieldsEl, GroupEl, GroupItem, GroupRefEl, GroupsEl,
    MessageEl, MessagesEl, NumInGroupEl, RefItem, Repository, RepositoryItem, StructureEl,
};
