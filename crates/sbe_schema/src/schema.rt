ghost use Rattle.std.specs.Prelude.{◌≡◌, IfOk, ◌≤◌, codes, length};
ghost use Rattle.json_data.specs.Trees.{data_of, items_of};
ghost use Rattle.json_elements.specs.Reading.{Gives, at_child};
ghost use Rattle.json_elements.specs.Attributes.{with_default};
ghost use Rattle.json_elements.specs.Elements.{lone, named, at_most, each};
ghost use Rattle.sbe_types.specs.InForm.{IsInForm};
ghost use Rattle.sbe_types.specs.declared.limits.TheConstants.{TYPE_LIMIT, MESSAGE_LIMIT};
ghost use Rattle.sbe_schema.specs.Forms.{a_name, element_of};
ghost use Rattle.sbe_schema.specs.Schemas.{types_child, declared, types_from, schema_child, outer_part, declares, outer_parts, message_count_in, message_count, schema_from, root, schema_of, Answers};

use crate::element_name::ElementName;
use crate::form::{Name, OrderWord};
use crate::message::read_message;
use crate::schema_err::SchemaErr;
use crate::types::{Standing, read_composite, read_enum, read_set, read_type};
use json_data::{Json, JsonSpace};
use json_elements::{
    Cause, ElementErr, IdNumber, JsonText, at_child, content_of, inside, limit_children, lone_of,
    needed, path_of, read_value, refuse, with_default,
};
use lists::{List, Text};
use sbe_types::{MESSAGE_LIMIT, Order, Schema, SchemaItem, TYPE_LIMIT, TypesEl, TypesItem};
use std::alloc::Global;

/// The tree of a schema file, or the first refusal with its place as a JSON pointer. docs/profile.md describes under
/// "Schema files" what a file may contain.
#[tactic(auto, using(crate::proofs::SchemaInForm::file_yields))]
pub fn read_schema(alloc: Global, bytes: &[u8]) -> Result<Schema, SchemaErr>
    ensures reads { Answers result (schema_of bytes.now) }
    ensures form { IfOk result (λ schema. IsInForm schema) }
{
    match read_file(alloc, bytes) {
        Ok(schema) => Ok(schema),
        Err(ElementErr::Memory) => Err(SchemaErr::Memory),
        Err(ElementErr::Refused(cause, steps)) => match path_of(alloc, steps.as_slice()) {
            Ok(path) => Err(SchemaErr::Refused(cause, path)),
            Err(_) => Err(SchemaErr::Memory),
        },
    }
}

fn read_file(alloc: Global, bytes: &[u8]) -> Result<Schema, ElementErr>
    ensures { Gives result (schema_of bytes.now) }
{
    let mut space = JsonSpace::new(alloc);
    let value = read_value(alloc, &mut space, bytes)?;
    read_root(alloc, &value)
}

fn read_root(alloc: Global, value: &Json<'_>) -> Result<Schema, ElementErr>
    ensures { Gives result (named (λ name. root (element_of name)) (data_of value.now)) }
{
    match lone_of(value) {
        None => refuse(alloc, Cause::Shape),
        Some((name, element)) => match ElementName::of(name) {
            ElementName::MessageSchema => {
                inside("messageSchema", read_message_schema(alloc, element))
            }
            _ => refuse(alloc, Cause::Shape),
        },
    }
}

fn read_message_schema(alloc: Global, element: &Json<'_>) -> Result<Schema, ElementErr>
    ensures { Gives result (schema_from (data_of element.now)) }
{
    let children = content_of(alloc, element)?;
    let id = needed::<IdNumber>(alloc, element, "id")?;
    let version = with_default::<IdNumber>(alloc, element, "version", 0)?;
    let package = with_default::<JsonText>(alloc, element, "package", List::new(alloc))?;
    let byte_order = with_default::<OrderWord>(alloc, element, "byteOrder", Order::Little)?;
    let header_type = read_header_type(alloc, element)?;
    limit_messages(alloc, children)?;
    let children = read_outer_parts(alloc, children)?;
    Ok(Schema {
        id,
        version,
        package,
        byte_order,
        header_type,
        children,
    })
}

fn read_header_type(alloc: Global, element: &Json<'_>) -> Result<Text, ElementErr>
    ensures { Gives result
        (with_default (codes "messageHeader") a_name (codes "headerType") (data_of element.now)) }
{
    let otherwise = List::from_slice(alloc, b"messageHeader")?;
    with_default::<Name>(alloc, element, "headerType", otherwise)
}

fn limit_messages(alloc: Global, items: &[Json<'_>]) -> Result<(), ElementErr>
    ensures { Gives result (at_most MESSAGE_LIMIT (message_count (items_of items.now))) }
{
    if count_messages(items) > MESSAGE_LIMIT {
        return refuse(alloc, Cause::Limit);
    }
    Ok(())
}

fn count_messages(items: &[Json<'_>]) -> usize
    ensures count { result ≡ message_count (items_of items.now) }
    ensures few { result ≤ length items.now }
{
    let mut count = 0;
    for item in items {
        count += one_if_message(item);
    }
    count
}

fn one_if_message(item: &Json<'_>) -> usize
    ensures count { result ≡ message_count_in (lone (data_of item.now)) }
    ensures few { result ≤ 1 }
{
    match lone_of(item) {
        None => 0,
        Some((name, _)) => match ElementName::of(name) {
            ElementName::Message => 1,
            _ => 0,
        },
    }
}

fn read_outer_parts(alloc: Global, items: &[Json<'_>]) -> Result<List<SchemaItem>, ElementErr>
    ensures { Gives result (outer_parts TYPE_LIMIT 0 (items_of items.now)) }
{
    let mut parts = List::new(alloc);
    let mut room = TYPE_LIMIT;
    for (i, item) in items.iter().enumerate() {
        let part = outer_part_at(alloc, room, i, item)?;
        room = room.saturating_sub(count_declared(&part));
        parts.push(part)?;
    }
    Ok(parts)
}

fn count_declared(part: &SchemaItem) -> usize
    ensures { result ≡ declares part.now }
{
    match part {
        SchemaItem::Types(types) => types.children.len(),
        SchemaItem::Message(_) => 0,
    }
}

fn outer_part_at(
    alloc: Global,
    room: usize,
    i: usize,
    item: &Json<'_>,
) -> Result<SchemaItem, ElementErr>
    ensures { Gives result (at_child i (outer_part room (data_of item.now))) }
{
    at_child(i, read_outer_part(alloc, room, item))
}

fn read_outer_part(alloc: Global, room: usize, item: &Json<'_>) -> Result<SchemaItem, ElementErr>
    ensures { Gives result (outer_part room (data_of item.now)) }
{
    match lone_of(item) {
        None => refuse(alloc, Cause::Shape),
        Some((name, element)) => read_named_outer(alloc, room, ElementName::of(name), element),
    }
}

fn read_named_outer(
    alloc: Global,
    room: usize,
    name: ElementName,
    element: &Json<'_>,
) -> Result<SchemaItem, ElementErr>
    ensures { Gives result (schema_child room name (data_of element.now)) }
{
    match name {
        ElementName::Types => {
            let found = inside("types", read_types(alloc, room, element))?;
            Ok(SchemaItem::Types(found))
        }
        ElementName::Message => {
            let found = inside("message", read_message(alloc, element))?;
            Ok(SchemaItem::Message(found))
        }
        _ => refuse(alloc, Cause::Shape),
    }
}

/// A `types` element, in which at most `room` more types may be declared.
fn read_types(alloc: Global, room: usize, element: &Json<'_>) -> Result<TypesEl, ElementErr>
    ensures { Gives result (types_from room (data_of element.now)) }
{
    let children = content_of(alloc, element)?;
    limit_children(alloc, children, room)?;
    let children = read_declared(alloc, children)?;
    Ok(TypesEl { children })
}

fn read_declared(alloc: Global, items: &[Json<'_>]) -> Result<List<TypesItem>, ElementErr>
    ensures { Gives result (each declared 0 (items_of items.now)) }
{
    let mut types = List::new(alloc);
    for (i, item) in items.iter().enumerate() {
        types.push(declared_at(alloc, i, item)?)?;
    }
    Ok(types)
}

fn declared_at(alloc: Global, i: usize, item: &Json<'_>) -> Result<TypesItem, ElementErr>
    ensures { Gives result (at_child i (declared (data_of item.now))) }
{
    at_child(i, read_declared_type(alloc, item))
}

fn read_declared_type(alloc: Global, item: &Json<'_>) -> Result<TypesItem, ElementErr>
    ensures { Gives result (declared (data_of item.now)) }
{
    match lone_of(item) {
        None => refuse(alloc, Cause::Shape),
        Some((name, element)) => read_named_type(alloc, ElementName::of(name), element),
    }
}

fn read_named_type(
    alloc: Global,
    name: ElementName,
    element: &Json<'_>,
) -> Result<TypesItem, ElementErr>
    ensures { Gives result (types_child name (data_of element.now)) }
{
    let declared = Standing::Declared;
    match name {
        ElementName::Type => {
            let found = inside("type", read_type(alloc, declared, element))?;
            Ok(TypesItem::Type(found))
        }
        ElementName::Composite => {
            let found = inside("composite", read_composite(alloc, declared, element))?;
            Ok(TypesItem::Composite(found))
        }
        ElementName::Enum => {
            let found = inside("enum", read_enum(alloc, declared, element))?;
            Ok(TypesItem::Enum(found))
        }
        ElementName::Set => {
            let found = inside("set", read_set(alloc, declared, element))?;
            Ok(TypesItem::Set(found))
        }
        _ => refuse(alloc, Cause::Shape),
    }
}
