ghost use Rattle.std.specs.Prelude.{◌≡◌};
ghost use Rattle.json_data.specs.Trees.{data_of, items_of};
ghost use Rattle.json_elements.specs.Reading.{Gives, GivesAs, at_child};
ghost use Rattle.json_elements.specs.Elements.{each, branches};
ghost use Rattle.sbe_schema.specs.TypeParts.{type_named, numbered_from, referred_from, placed_from};
ghost use Rattle.sbe_schema.specs.Types.{offset_from, since_from, type_from, ref_from, valid_value_from, enum_child, valid_value, enum_from, choice_from, set_child, choice, set_from, composite_from, composite_child, by_member, member_of};

use crate::element_name::ElementName;
use crate::form::{ArrayLength, BytePlace, DottedName, Name, PresenceWord, PrimitiveWord};
use json_data::Json;
use json_elements::{
    Cause, ElementErr, IdNumber, JsonText, TextOrNumber, WholeNumber, at_child, content_of, inside,
    limit_children, lone_of, needed, optional, refuse, refuse_children, with_default,
};
use lists::{List, Text};
use sbe_types::{
    ChoiceEl, CompositeEl, EnumEl, MEMBER_LIMIT, MemberItem, Presence, PrimitiveType, RefEl, SetEl,
    TypeEl, VALUE_LIMIT, ValidValueEl, ValueRef,
};
use std::alloc::Global;

/// Where a type occurs.
#[derive(Clone, Copy, Debug, PartialEq, Eq)]
pub enum Standing {
    /// In a `types` element.
    Declared,
    /// In a composite, where it may have an offset and a version.
    Member,
}

pub fn read_type(
    alloc: Global,
    standing: Standing,
    element: &Json<'_>,
) -> Result<TypeEl, ElementErr>
    ensures { Gives result (type_from standing (data_of element.now)) }
{
    let children = content_of(alloc, element)?;
    let name = needed::<Name>(alloc, element, "name")?;
    let numbered = read_numbered(alloc, standing, element, children)?;
    Ok(named_type(name, numbered))
}

/// A type without its name.
#[derive(Drop)]
struct NumberedType {
    primitive_type: PrimitiveType,
    length: u32,
    presence: Option<Presence>,
    null_value: Option<i128>,
    min_value: Option<i128>,
    max_value: Option<i128>,
    character_encoding: Option<Text>,
    referred: ReferredType,
}

/// A type's `valueRef` and what comes after it.
#[derive(Drop)]
struct ReferredType {
    value_ref: Option<ValueRef>,
    placed: PlacedType,
}

/// A type's `text` and what comes after it.
#[derive(Drop)]
struct PlacedType {
    text: Option<Text>,
    offset: Option<u32>,
    since_version: u32,
}

fn named_type(name: Text, numbered: NumberedType) -> TypeEl
    ensures { result ≡ type_named name numbered }
{
    let NumberedType {
        primitive_type,
        length,
        presence,
        null_value,
        min_value,
        max_value,
        character_encoding,
        referred,
    } = numbered;
    let ReferredType { value_ref, placed } = referred;
    let PlacedType {
        text,
        offset,
        since_version,
    } = placed;
    TypeEl {
        name,
        primitive_type,
        length,
        presence,
        null_value,
        min_value,
        max_value,
        character_encoding,
        value_ref,
        text,
        offset,
        since_version,
    }
}

fn read_numbered(
    alloc: Global,
    standing: Standing,
    element: &Json<'_>,
    children: &[Json<'_>],
) -> Result<NumberedType, ElementErr>
    ensures { (made : NumberedType → TypeEl) → GivesAs made result (numbered_from made standing (items_of children.now) (data_of element.now)) }
{
    let primitive_type = needed::<PrimitiveWord>(alloc, element, "primitiveType")?;
    let length = with_default::<ArrayLength>(alloc, element, "length", 1)?;
    let presence = optional::<PresenceWord>(alloc, element, "presence")?;
    let null_value = optional::<WholeNumber>(alloc, element, "nullValue")?;
    let min_value = optional::<WholeNumber>(alloc, element, "minValue")?;
    let max_value = optional::<WholeNumber>(alloc, element, "maxValue")?;
    let character_encoding = optional::<JsonText>(alloc, element, "characterEncoding")?;
    let referred = read_referred(alloc, standing, element, children)?;
    Ok(NumberedType {
        primitive_type,
        length,
        presence,
        null_value,
        min_value,
        max_value,
        character_encoding,
        referred,
    })
}

fn read_referred(
    alloc: Global,
    standing: Standing,
    element: &Json<'_>,
    children: &[Json<'_>],
) -> Result<ReferredType, ElementErr>
    ensures { (made : ReferredType → TypeEl) → GivesAs made result (referred_from made standing (items_of children.now) (data_of element.now)) }
{
    let value_ref = optional::<DottedName>(alloc, element, "valueRef")?;
    let placed = read_placed(alloc, standing, element, children)?;
    Ok(ReferredType { value_ref, placed })
}

fn read_placed(
    alloc: Global,
    standing: Standing,
    element: &Json<'_>,
    children: &[Json<'_>],
) -> Result<PlacedType, ElementErr>
    ensures { (made : PlacedType → TypeEl) → GivesAs made result (placed_from made standing (items_of children.now) (data_of element.now)) }
{
    let text = optional::<TextOrNumber>(alloc, element, "text")?;
    let offset = read_offset(alloc, standing, element)?;
    let since_version = read_since(alloc, standing, element)?;
    refuse_children(alloc, children)?;
    Ok(PlacedType {
        text,
        offset,
        since_version,
    })
}

fn read_offset(
    alloc: Global,
    standing: Standing,
    element: &Json<'_>,
) -> Result<Option<u32>, ElementErr>
    ensures { Gives result (offset_from standing (data_of element.now)) }
{
    match standing {
        Standing::Declared => Ok(None),
        Standing::Member => optional::<BytePlace>(alloc, element, "offset"),
    }
}

fn read_since(alloc: Global, standing: Standing, element: &Json<'_>) -> Result<u32, ElementErr>
    ensures { Gives result (since_from standing (data_of element.now)) }
{
    match standing {
        Standing::Declared => Ok(0),
        Standing::Member => with_default::<IdNumber>(alloc, element, "sinceVersion", 0),
    }
}

fn read_ref(alloc: Global, element: &Json<'_>) -> Result<RefEl, ElementErr>
    ensures { Gives result (ref_from (data_of element.now)) }
{
    let children = content_of(alloc, element)?;
    let name = needed::<Name>(alloc, element, "name")?;
    let type_name = needed::<Name>(alloc, element, "type")?;
    let offset = read_offset(alloc, Standing::Member, element)?;
    let since_version = read_since(alloc, Standing::Member, element)?;
    refuse_children(alloc, children)?;
    Ok(RefEl {
        name,
        type_name,
        offset,
        since_version,
    })
}

pub fn read_enum(
    alloc: Global,
    standing: Standing,
    element: &Json<'_>,
) -> Result<EnumEl, ElementErr>
    ensures { Gives result (enum_from standing (data_of element.now)) }
{
    let children = content_of(alloc, element)?;
    let name = needed::<Name>(alloc, element, "name")?;
    let encoding_type = needed::<Name>(alloc, element, "encodingType")?;
    let offset = read_offset(alloc, standing, element)?;
    let since_version = read_since(alloc, standing, element)?;
    limit_children(alloc, children, VALUE_LIMIT)?;
    let children = read_valid_values(alloc, children)?;
    Ok(EnumEl {
        name,
        encoding_type,
        offset,
        since_version,
        children,
    })
}

fn read_valid_values(alloc: Global, items: &[Json<'_>]) -> Result<List<ValidValueEl>, ElementErr>
    ensures { Gives result (each valid_value 0 (items_of items.now)) }
{
    let mut values = List::new(alloc);
    for (i, item) in items.iter().enumerate() {
        values.push(valid_value_at(alloc, i, item)?)?;
    }
    Ok(values)
}

fn valid_value_at(alloc: Global, i: usize, item: &Json<'_>) -> Result<ValidValueEl, ElementErr>
    ensures { Gives result (at_child i (valid_value (data_of item.now))) }
{
    at_child(i, read_enum_child(alloc, item))
}

fn read_enum_child(alloc: Global, item: &Json<'_>) -> Result<ValidValueEl, ElementErr>
    ensures { Gives result (valid_value (data_of item.now)) }
{
    match lone_of(item) {
        None => refuse(alloc, Cause::Shape),
        Some((name, element)) => match ElementName::of(name) {
            ElementName::ValidValue => inside("validValue", read_valid_value(alloc, element)),
            _ => refuse(alloc, Cause::Shape),
        },
    }
}

fn read_valid_value(alloc: Global, element: &Json<'_>) -> Result<ValidValueEl, ElementErr>
    ensures { Gives result (valid_value_from (data_of element.now)) }
{
    let children = content_of(alloc, element)?;
    let name = needed::<Name>(alloc, element, "name")?;
    let text = needed::<TextOrNumber>(alloc, element, "text")?;
    refuse_children(alloc, children)?;
    Ok(ValidValueEl { name, text })
}

pub fn read_set(alloc: Global, standing: Standing, element: &Json<'_>) -> Result<SetEl, ElementErr>
    ensures { Gives result (set_from standing (data_of element.now)) }
{
    let children = content_of(alloc, element)?;
    let name = needed::<Name>(alloc, element, "name")?;
    let encoding_type = needed::<Name>(alloc, element, "encodingType")?;
    let offset = read_offset(alloc, standing, element)?;
    let since_version = read_since(alloc, standing, element)?;
    let children = read_choices(alloc, children)?;
    Ok(SetEl {
        name,
        encoding_type,
        offset,
        since_version,
        children,
    })
}

fn read_choices(alloc: Global, items: &[Json<'_>]) -> Result<List<ChoiceEl>, ElementErr>
    ensures { Gives result (each choice 0 (items_of items.now)) }
{
    let mut choices = List::new(alloc);
    for (i, item) in items.iter().enumerate() {
        choices.push(choice_at(alloc, i, item)?)?;
    }
    Ok(choices)
}

fn choice_at(alloc: Global, i: usize, item: &Json<'_>) -> Result<ChoiceEl, ElementErr>
    ensures { Gives result (at_child i (choice (data_of item.now))) }
{
    at_child(i, read_set_child(alloc, item))
}

fn read_set_child(alloc: Global, item: &Json<'_>) -> Result<ChoiceEl, ElementErr>
    ensures { Gives result (choice (data_of item.now)) }
{
    match lone_of(item) {
        None => refuse(alloc, Cause::Shape),
        Some((name, element)) => match ElementName::of(name) {
            ElementName::Choice => inside("choice", read_choice(alloc, element)),
            _ => refuse(alloc, Cause::Shape),
        },
    }
}

fn read_choice(alloc: Global, element: &Json<'_>) -> Result<ChoiceEl, ElementErr>
    ensures { Gives result (choice_from (data_of element.now)) }
{
    let children = content_of(alloc, element)?;
    let name = needed::<Name>(alloc, element, "name")?;
    let text = needed::<TextOrNumber>(alloc, element, "text")?;
    refuse_children(alloc, children)?;
    Ok(ChoiceEl { name, text })
}

#[cycle(members)]
#[tactic(auto, using(crate::proofs::Children::branches_each))]
pub fn read_composite(
    alloc: Global,
    standing: Standing,
    element: &Json<'_>,
) -> Result<CompositeEl, ElementErr>
    ensures { Gives result
        (composite_from standing (data_of element.now) (branches by_member (data_of element.now))) }
{
    let children = content_of(alloc, element)?;
    let name = needed::<Name>(alloc, element, "name")?;
    let offset = read_offset(alloc, standing, element)?;
    let since_version = read_since(alloc, standing, element)?;
    limit_children(alloc, children, MEMBER_LIMIT)?;
    let children = read_members(alloc, children)?;
    Ok(CompositeEl {
        name,
        offset,
        since_version,
        children,
    })
}

#[cycle(members)]
fn read_members(alloc: Global, items: &[Json<'_>]) -> Result<List<MemberItem>, ElementErr>
    ensures { Gives result (each member_of 0 (items_of items.now)) }
{
    let mut members = List::new(alloc);
    for (i, item) in items.iter().enumerate() {
        members.push(member_at(alloc, i, item)?)?;
    }
    Ok(members)
}

#[cycle(members)]
fn member_at(alloc: Global, i: usize, item: &Json<'_>) -> Result<MemberItem, ElementErr>
    ensures { Gives result (at_child i (member_of (data_of item.now))) }
{
    at_child(i, read_member(alloc, item))
}

#[cycle(members)]
#[tactic(auto, using(crate::proofs::Children::tree_seen, crate::proofs::Children::tree_unseen))]
fn read_member(alloc: Global, item: &Json<'_>) -> Result<MemberItem, ElementErr>
    ensures { Gives result (member_of (data_of item.now)) }
{
    match lone_of(item) {
        None => refuse(alloc, Cause::Shape),
        Some((name, element)) => read_named_member(alloc, ElementName::of(name), element),
    }
}

#[cycle(members)]
fn read_named_member(
    alloc: Global,
    name: ElementName,
    element: &Json<'_>,
) -> Result<MemberItem, ElementErr>
    ensures { Gives result
        (composite_child name (data_of element.now) (branches by_member (data_of element.now))) }
{
    let member = Standing::Member;
    match name {
        ElementName::Type => {
            let found = inside("type", read_type(alloc, member, element))?;
            Ok(MemberItem::Type(found))
        }
        ElementName::Enum => {
            let found = inside("enum", read_enum(alloc, member, element))?;
            Ok(MemberItem::Enum(found))
        }
        ElementName::Set => {
            let found = inside("set", read_set(alloc, member, element))?;
            Ok(MemberItem::Set(found))
        }
        ElementName::Composite => {
            let found = inside("composite", read_composite(alloc, member, element))?;
            Ok(MemberItem::Composite(found))
        }
        ElementName::Ref => {
            let found = inside("ref", read_ref(alloc, element))?;
            Ok(MemberItem::Ref(found))
        }
        _ => refuse(alloc, Cause::Shape),
    }
}
