//! The outline of a schema: a line for each element, with all of its attributes, followed by its children.

use lists::Text;
use sbe_types::{
    CompositeEl, EnumEl, FieldEl, GroupEl, MemberItem, MessageEl, PartItem, Schema, SchemaItem,
    SetEl, TypeEl, TypesEl, TypesItem, ValueRef,
};
use std::alloc::{AllocError, Global};
use std::str::from_utf8;

fn shown(text: &Text) -> &str {
    match from_utf8(text.as_slice()) {
        Ok(text) => text,
        Err(_) => "?",
    }
}

fn shown_or(text: &Option<Text>) -> &str {
    match text {
        Some(text) => shown(text),
        None => "-",
    }
}

fn names_of(reference: &Option<ValueRef>) -> (&str, &str) {
    match reference {
        Some(reference) => (shown(&reference.enum_name), shown(&reference.value_name)),
        None => ("-", "-"),
    }
}

fn add(out: &mut String, line: Result<String, AllocError>) -> Result<(), AllocError> {
    out.push_str(line?.as_str())?;
    out.push_str("\n")
}

/// Adds the outline of a schema.
pub fn add_schema(alloc: Global, out: &mut String, schema: &Schema) -> Result<(), AllocError> {
    let line = format!(in alloc;
        "schema {} {} {} {:?} {}",
        schema.id,
        schema.version,
        shown(&schema.package),
        schema.byte_order,
        shown(&schema.header_type)
    );
    add(out, line)?;
    for item in schema.children.as_slice() {
        match item {
            SchemaItem::Types(types) => add_types(alloc, out, types)?,
            SchemaItem::Message(message) => add_message(alloc, out, message)?,
        }
    }
    Ok(())
}

fn add_types(alloc: Global, out: &mut String, types: &TypesEl) -> Result<(), AllocError> {
    out.push_str("types\n")?;
    for item in types.children.as_slice() {
        match item {
            TypesItem::Type(found) => add_type(alloc, out, found)?,
            TypesItem::Composite(found) => add_composite(alloc, out, found)?,
            TypesItem::Enum(found) => add_enum(alloc, out, found)?,
            TypesItem::Set(found) => add_set(alloc, out, found)?,
        }
    }
    Ok(())
}

fn add_type(alloc: Global, out: &mut String, el: &TypeEl) -> Result<(), AllocError> {
    let (enum_name, value_name) = names_of(&el.value_ref);
    let head = format!(in alloc;
        "type {} {:?} x{} {:?} {:?} {:?} {:?}",
        shown(&el.name),
        el.primitive_type,
        el.length,
        el.presence,
        el.null_value,
        el.min_value,
        el.max_value
    )?;
    let line = format!(in alloc;
        "{head} {} {enum_name}.{value_name} {} at {:?} since {}",
        shown_or(&el.character_encoding),
        shown_or(&el.text),
        el.offset,
        el.since_version
    );
    add(out, line)
}

fn add_enum(alloc: Global, out: &mut String, el: &EnumEl) -> Result<(), AllocError> {
    let line = format!(in alloc;
        "enum {} {} at {:?} since {}",
        shown(&el.name),
        shown(&el.encoding_type),
        el.offset,
        el.since_version
    );
    add(out, line)?;
    for value in el.children.as_slice() {
        add(
            out,
            format!(in alloc; "{} {}", shown(&value.name), shown(&value.text)),
        )?;
    }
    Ok(())
}

fn add_set(alloc: Global, out: &mut String, el: &SetEl) -> Result<(), AllocError> {
    let line = format!(in alloc;
        "set {} {} at {:?} since {}",
        shown(&el.name),
        shown(&el.encoding_type),
        el.offset,
        el.since_version
    );
    add(out, line)?;
    for choice in el.children.as_slice() {
        add(
            out,
            format!(in alloc; "{} {}", shown(&choice.name), shown(&choice.text)),
        )?;
    }
    Ok(())
}

fn add_composite(alloc: Global, out: &mut String, el: &CompositeEl) -> Result<(), AllocError> {
    add_composite_line(alloc, out, el)?;
    for item in el.children.as_slice() {
        match item {
            MemberItem::Composite(inner) => add_inner_composite(alloc, out, inner)?,
            other => add_member(alloc, out, other)?,
        }
    }
    Ok(())
}

/// A composite inside another. What is in a third one isn't shown.
fn add_inner_composite(
    alloc: Global,
    out: &mut String,
    el: &CompositeEl,
) -> Result<(), AllocError> {
    add_composite_line(alloc, out, el)?;
    for item in el.children.as_slice() {
        add_member(alloc, out, item)?;
    }
    Ok(())
}

fn add_composite_line(alloc: Global, out: &mut String, el: &CompositeEl) -> Result<(), AllocError> {
    let line = format!(in alloc;
        "composite {} of {} at {:?} since {}",
        shown(&el.name),
        el.children.len(),
        el.offset,
        el.since_version
    );
    add(out, line)
}

fn add_member(alloc: Global, out: &mut String, item: &MemberItem) -> Result<(), AllocError> {
    match item {
        MemberItem::Type(found) => add_type(alloc, out, found),
        MemberItem::Enum(found) => add_enum(alloc, out, found),
        MemberItem::Set(found) => add_set(alloc, out, found),
        MemberItem::Composite(found) => add_composite_line(alloc, out, found),
        MemberItem::Ref(found) => {
            let line = format!(in alloc;
                "ref {} {} at {:?} since {}",
                shown(&found.name),
                shown(&found.type_name),
                found.offset,
                found.since_version
            );
            add(out, line)
        }
    }
}

fn add_message(alloc: Global, out: &mut String, el: &MessageEl) -> Result<(), AllocError> {
    let line = format!(in alloc;
        "message {} {} \"{}\" since {} {:?} of {}",
        shown(&el.name),
        el.id,
        shown(&el.semantic_type),
        el.since_version,
        el.block_length,
        el.children.len()
    );
    add(out, line)?;
    for item in el.children.as_slice() {
        match item {
            PartItem::Group(group) => add_group(alloc, out, group)?,
            other => add_part(alloc, out, other)?,
        }
    }
    Ok(())
}

/// A group of a message. What is in a group of a group of its entries isn't shown.
fn add_group(alloc: Global, out: &mut String, el: &GroupEl) -> Result<(), AllocError> {
    add_group_line(alloc, out, el)?;
    for item in el.children.as_slice() {
        match item {
            PartItem::Group(inner) => add_inner_group(alloc, out, inner)?,
            other => add_part(alloc, out, other)?,
        }
    }
    Ok(())
}

fn add_inner_group(alloc: Global, out: &mut String, el: &GroupEl) -> Result<(), AllocError> {
    add_group_line(alloc, out, el)?;
    for item in el.children.as_slice() {
        add_part(alloc, out, item)?;
    }
    Ok(())
}

fn add_group_line(alloc: Global, out: &mut String, el: &GroupEl) -> Result<(), AllocError> {
    let line = format!(in alloc;
        "group {} {} {} since {} {:?} of {}",
        shown(&el.name),
        el.id,
        shown(&el.dimension_type),
        el.since_version,
        el.block_length,
        el.children.len()
    );
    add(out, line)
}

fn add_part(alloc: Global, out: &mut String, item: &PartItem) -> Result<(), AllocError> {
    match item {
        PartItem::Field(found) => add_field(alloc, out, found),
        PartItem::Group(found) => add_group_line(alloc, out, found),
        PartItem::Data(found) => {
            let line = format!(in alloc;
                "data {} {} {} since {}",
                shown(&found.name),
                found.id,
                shown(&found.type_name),
                found.since_version
            );
            add(out, line)
        }
    }
}

fn add_field(alloc: Global, out: &mut String, el: &FieldEl) -> Result<(), AllocError> {
    let (enum_name, value_name) = names_of(&el.value_ref);
    let line = format!(in alloc;
        "field {} {} {} since {} {:?} at {:?} {enum_name}.{value_name}",
        shown(&el.name),
        el.id,
        shown(&el.type_name),
        el.since_version,
        el.presence,
        el.offset
    );
    add(out, line)
}
