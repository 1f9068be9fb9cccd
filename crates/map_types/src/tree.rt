ghost use Rattle.std.specs.Prelude.{◌≡◌};
ghost use Rattle.map_types.specs.Trees.{ref_in};

use lists::{List, Text};

/// A `repository`: a mapping as its file states it.
#[derive(Debug, Drop)]
pub struct Repository {
    pub children: List<RepositoryItem>,
}

/// A child of a `repository`. The same kind of list may occur several times; its members count as one list.
#[derive(Debug, Drop)]
pub enum RepositoryItem {
    Datatypes(DatatypesEl),
    CodeSets(CodeSetsEl),
    Fields(FieldsEl),
    Components(ComponentsEl),
    Groups(GroupsEl),
    Messages(MessagesEl),
}

/// A `datatypes` element, which declares datatypes.
#[derive(Debug, Drop)]
pub struct DatatypesEl {
    pub children: List<DatatypeEl>,
}

/// A declared datatype.
#[derive(Debug, Drop)]
pub struct DatatypeEl {
    pub name: Text,
}

/// A `codeSets` element.
#[derive(Debug, Drop)]
pub struct CodeSetsEl {
    pub children: List<CodeSetEl>,
}

/// A code set: the values of fields that have it as their type.
#[derive(Debug, Drop)]
pub struct CodeSetEl {
    pub name: Text,
    /// The datatype of the values.
    pub type_name: Text,
    pub children: List<CodeEl>,
}

/// A code: a value and its name.
#[derive(Debug, Drop)]
pub struct CodeEl {
    pub name: Text,
    pub value: Text,
}

/// A `fields` element.
#[derive(Debug, Drop)]
pub struct FieldsEl {
    pub children: List<FieldEl>,
}

/// A field. Its id is its tag.
#[derive(Debug, Drop)]
pub struct FieldEl {
    pub id: u32,
    pub name: Text,
    /// A datatype or a code set.
    pub type_name: Text,
    /// The id of the field that holds the length of this field's data.
    pub length_id: Option<u32>,
}

/// A `components` element.
#[derive(Debug, Drop)]
pub struct ComponentsEl {
    pub children: List<ComponentEl>,
}

/// A component: references that are used together.
#[derive(Debug, Drop)]
pub struct ComponentEl {
    pub id: u32,
    pub name: Text,
    pub children: List<RefItem>,
}

/// A `groups` element.
#[derive(Debug, Drop)]
pub struct GroupsEl {
    pub children: List<GroupEl>,
}

/// A repeating group. The field that counts its entries comes first.
#[derive(Debug, Drop)]
pub struct GroupEl {
    pub id: u32,
    pub name: Text,
    pub children: List<GroupItem>,
}

/// A `messages` element.
#[derive(Debug, Drop)]
pub struct MessagesEl {
    pub children: List<MessageEl>,
}

/// A message. It has one structure or none.
#[derive(Debug, Drop)]
pub struct MessageEl {
    pub name: Text,
    pub msg_type: Text,
    pub children: List<StructureEl>,
}

/// The structure of a message.
#[derive(Debug, Drop)]
pub struct StructureEl {
    pub children: List<RefItem>,
}

/// A reference to a field.
#[derive(Clone, Copy, Debug, PartialEq, Eq)]
pub struct FieldRefEl {
    pub id: u32,
}

/// A reference to a group.
#[derive(Clone, Copy, Debug, PartialEq, Eq)]
pub struct GroupRefEl {
    pub id: u32,
}

/// A reference to a component.
#[derive(Clone, Copy, Debug, PartialEq, Eq)]
pub struct ComponentRefEl {
    pub id: u32,
}

/// A reference to the field that counts a group's entries.
#[derive(Clone, Copy, Debug, PartialEq, Eq)]
pub struct NumInGroupEl {
    pub id: u32,
}

/// A reference, as components and structures have them.
#[derive(Clone, Copy, Debug, PartialEq, Eq)]
pub enum RefItem {
    FieldRef(FieldRefEl),
    GroupRef(GroupRefEl),
    ComponentRef(ComponentRefEl),
}

/// A child of a group.
#[derive(Clone, Copy, Debug, PartialEq, Eq)]
pub enum GroupItem {
    NumInGroup(NumInGroupEl),
    FieldRef(FieldRefEl),
    GroupRef(GroupRefEl),
    ComponentRef(ComponentRefEl),
}

impl GroupItem {
    /// The reference, if it isn't the count.
    pub fn reference(self) -> Option<RefItem>
        ensures { result ≡ ref_in self }
    {
        match self {
            GroupItem::NumInGroup(_) => None,
            GroupItem::FieldRef(r) => Some(RefItem::FieldRef(r)),
            GroupItem::GroupRef(r) => Some(RefItem::GroupRef(r)),
            GroupItem::ComponentRef(r) => Some(RefItem::ComponentRef(r)),
        }
    }
}
