ghost use Rattle.std.specs.Prelude.{◌≡◌, codes};
ghost use Rattle.json_data.specs.Trees.{data_of, items_of};
ghost use Rattle.json_elements.specs.Reading.{Gives, at_child};
ghost use Rattle.json_elements.specs.Attributes.{with_default};
ghost use Rattle.json_elements.specs.Elements.{each, branches};
ghost use Rattle.sbe_schema.specs.Forms.{a_name};
ghost use Rattle.sbe_schema.specs.Messages.{field_from, data_from, group_from, part_child, by_part, part_of, message_from};

use crate::element_name::ElementName;
use crate::form::{BytePlace, DottedName, Name, PresenceWord};
use json_data::Json;
use json_elements::{
    Cause, ElementErr, IdNumber, JsonText, at_child, content_of, inside, limit_children, lone_of,
    needed, optional, refuse, refuse_children, with_default,
};
use lists::{List, Text};
use sbe_types::{DataEl, FieldEl, GroupEl, MessageEl, PART_LIMIT, PartItem};
use std::alloc::Global;

pub fn read_message(alloc: Global, element: &Json<'_>) -> Result<MessageEl, ElementErr>
    ensures { Gives result (message_from (data_of element.now)) }
{
    let children = content_of(alloc, element)?;
    let name = needed::<Name>(alloc, element, "name")?;
    let id = needed::<IdNumber>(alloc, element, "id")?;
    let semantic_type = with_default::<JsonText>(alloc, element, "semanticType", List::new(alloc))?;
    let since_version = with_default::<IdNumber>(alloc, element, "sinceVersion", 0)?;
    let block_length = optional::<BytePlace>(alloc, element, "blockLength")?;
    limit_children(alloc, children, PART_LIMIT)?;
    let children = read_parts(alloc, children)?;
    Ok(MessageEl {
        name,
        id,
        semantic_type,
        since_version,
        block_length,
        children,
    })
}

fn read_field(alloc: Global, element: &Json<'_>) -> Result<FieldEl, ElementErr>
    ensures { Gives result (field_from (data_of element.now)) }
{
    let children = content_of(alloc, element)?;
    let name = needed::<Name>(alloc, element, "name")?;
    let id = needed::<IdNumber>(alloc, element, "id")?;
    let type_name = needed::<Name>(alloc, element, "type")?;
    let since_version = with_default::<IdNumber>(alloc, element, "sinceVersion", 0)?;
    let presence = optional::<PresenceWord>(alloc, element, "presence")?;
    let offset = optional::<BytePlace>(alloc, element, "offset")?;
    let value_ref = optional::<DottedName>(alloc, element, "valueRef")?;
    refuse_children(alloc, children)?;
    Ok(FieldEl {
        name,
        id,
        type_name,
        since_version,
        presence,
        offset,
        value_ref,
    })
}

fn read_data(alloc: Global, element: &Json<'_>) -> Result<DataEl, ElementErr>
    ensures { Gives result (data_from (data_of element.now)) }
{
    let children = content_of(alloc, element)?;
    let name = needed::<Name>(alloc, element, "name")?;
    let id = needed::<IdNumber>(alloc, element, "id")?;
    let type_name = needed::<Name>(alloc, element, "type")?;
    let since_version = with_default::<IdNumber>(alloc, element, "sinceVersion", 0)?;
    refuse_children(alloc, children)?;
    Ok(DataEl {
        name,
        id,
        type_name,
        since_version,
    })
}

#[cycle(parts)]
#[tactic(auto, using(crate::proofs::Children::branches_each))]
fn read_group(alloc: Global, element: &Json<'_>) -> Result<GroupEl, ElementErr>
    ensures { Gives result
        (group_from (data_of element.now) (branches by_part (data_of element.now))) }
{
    let children = content_of(alloc, element)?;
    let name = needed::<Name>(alloc, element, "name")?;
    let id = needed::<IdNumber>(alloc, element, "id")?;
    let dimension_type = read_dimension_type(alloc, element)?;
    let since_version = with_default::<IdNumber>(alloc, element, "sinceVersion", 0)?;
    let block_length = optional::<BytePlace>(alloc, element, "blockLength")?;
    limit_children(alloc, children, PART_LIMIT)?;
    let children = read_parts(alloc, children)?;
    Ok(GroupEl {
        name,
        id,
        dimension_type,
        since_version,
        block_length,
        children,
    })
}

fn read_dimension_type(alloc: Global, element: &Json<'_>) -> Result<Text, ElementErr>
    ensures { Gives result
        (with_default (codes "groupSizeEncoding") a_name (codes "dimensionType") (data_of element.now)) }
{
    let otherwise = List::from_slice(alloc, b"groupSizeEncoding")?;
    with_default::<Name>(alloc, element, "dimensionType", otherwise)
}

#[cycle(parts)]
fn read_parts(alloc: Global, items: &[Json<'_>]) -> Result<List<PartItem>, ElementErr>
    ensures { Gives result (each part_of 0 (items_of items.now)) }
{
    let mut parts = List::new(alloc);
    for (i, item) in items.iter().enumerate() {
        parts.push(part_at(alloc, i, item)?)?;
    }
    Ok(parts)
}

#[cycle(parts)]
fn part_at(alloc: Global, i: usize, item: &Json<'_>) -> Result<PartItem, ElementErr>
    ensures { Gives result (at_child i (part_of (data_of item.now))) }
{
    at_child(i, read_part(alloc, item))
}

#[cycle(parts)]
#[tactic(auto, using(crate::proofs::Children::tree_seen, crate::proofs::Children::tree_unseen))]
fn read_part(alloc: Global, item: &Json<'_>) -> Result<PartItem, ElementErr>
    ensures { Gives result (part_of (data_of item.now)) }
{
    match lone_of(item) {
        None => refuse(alloc, Cause::Shape),
        Some((name, element)) => read_named_part(alloc, ElementName::of(name), element),
    }
}

#[cycle(parts)]
fn read_named_part(
    alloc: Global,
    name: ElementName,
    element: &Json<'_>,
) -> Result<PartItem, ElementErr>
    ensures { Gives result
        (part_child name (data_of element.now) (branches by_part (data_of element.now))) }
{
    match name {
        ElementName::Field => {
            let found = inside("field", read_field(alloc, element))?;
            Ok(PartItem::Field(found))
        }
        ElementName::Group => {
            let found = inside("group", read_group(alloc, element))?;
            Ok(PartItem::Group(found))
        }
        ElementName::Data => {
            let found = inside("data", read_data(alloc, element))?;
            Ok(PartItem::Data(found))
        }
        _ => refuse(alloc, Cause::Shape),
    }
}
