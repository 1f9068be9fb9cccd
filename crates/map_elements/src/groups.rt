ghost use Rattle.json_data.specs.Trees.{data_of};
ghost use Rattle.json_elements.specs.Reading.{Gives};
ghost use Rattle.map_elements.specs.Groups.{component_from, component_child, group_item, group_child, group_from, group_list_child};

use crate::element_name::ElementName;
use crate::form::MapId;
use crate::references::{RefChild, read_id};
use json_data::Json;
use json_elements::{
    Cause, Child, ElementErr, JsonText, content_of, inside, needed, read_children, refuse,
};
use map_types::{
    ComponentEl, ComponentRefEl, FieldRefEl, GroupEl, GroupItem, GroupRefEl, NumInGroupEl,
};
use std::alloc::Global;

/// Components.
pub enum ComponentChild {}

impl Child for ComponentChild {
    type Out = ComponentEl;

    ghost child = { component_child };

    fn read(
        alloc: Global,
        before: &[ComponentEl],
        name: &str,
        element: &Json<'_>,
    ) -> Result<Option<ComponentEl>, ElementErr> {
        match ElementName::of(name) {
            ElementName::Component => {
                Ok(Some(inside("component", read_component(alloc, element))?))
            }
            _ => Ok(None),
        }
    }
}

fn read_component(alloc: Global, element: &Json<'_>) -> Result<ComponentEl, ElementErr>
    ensures { Gives result (component_from (data_of element.now)) }
{
    let children = content_of(alloc, element)?;
    let id = needed::<MapId>(alloc, element, "id")?;
    let name = needed::<JsonText>(alloc, element, "name")?;
    let children = read_children::<RefChild>(alloc, children)?;
    Ok(ComponentEl { id, name, children })
}

/// Groups.
pub enum GroupListChild {}

impl Child for GroupListChild {
    type Out = GroupEl;

    ghost child = { group_list_child };

    fn read(
        alloc: Global,
        before: &[GroupEl],
        name: &str,
        element: &Json<'_>,
    ) -> Result<Option<GroupEl>, ElementErr> {
        match ElementName::of(name) {
            ElementName::Group => Ok(Some(inside("group", read_group(alloc, element))?)),
            _ => Ok(None),
        }
    }
}

fn read_group(alloc: Global, element: &Json<'_>) -> Result<GroupEl, ElementErr>
    ensures { Gives result (group_from (data_of element.now)) }
{
    let children = content_of(alloc, element)?;
    let id = needed::<MapId>(alloc, element, "id")?;
    let name = needed::<JsonText>(alloc, element, "name")?;
    let children = read_children::<GroupChild>(alloc, children)?;
    if children.is_empty() {
        return refuse(alloc, Cause::Shape);
    }
    Ok(GroupEl { id, name, children })
}

/// The count of a group, and then references.
enum GroupChild {}

impl Child for GroupChild {
    type Out = GroupItem;

    ghost child = { group_child };

    fn read(
        alloc: Global,
        before: &[GroupItem],
        name: &str,
        element: &Json<'_>,
    ) -> Result<Option<GroupItem>, ElementErr> {
        read_group_item(alloc, before.is_empty(), ElementName::of(name), element)
    }
}

fn read_group_item(
    alloc: Global,
    first: bool,
    name: ElementName,
    element: &Json<'_>,
) -> Result<Option<GroupItem>, ElementErr>
    ensures { Gives result (group_item first name (data_of element.now)) }
{
    match name {
        ElementName::NumInGroup => {
            if !first {
                return refuse(alloc, Cause::Shape);
            }
            let id = inside("numInGroup", read_id(alloc, element))?;
            Ok(Some(GroupItem::NumInGroup(NumInGroupEl { id })))
        }
        ElementName::FieldRef => {
            if first {
                return refuse(alloc, Cause::Shape);
            }
            let id = inside("fieldRef", read_id(alloc, element))?;
            Ok(Some(GroupItem::FieldRef(FieldRefEl { id })))
        }
        ElementName::GroupRef => {
            if first {
                return refuse(alloc, Cause::Shape);
            }
            let id = inside("groupRef", read_id(alloc, element))?;
            Ok(Some(GroupItem::GroupRef(GroupRefEl { id })))
        }
        ElementName::ComponentRef => {
            if first {
                return refuse(alloc, Cause::Shape);
            }
            let id = inside("componentRef", read_id(alloc, element))?;
            Ok(Some(GroupItem::ComponentRef(ComponentRefEl { id })))
        }
        _ => Ok(None),
    }
}
