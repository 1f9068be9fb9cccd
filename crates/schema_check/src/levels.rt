ghost use Rattle.std.specs.Prelude.{◌≡◌, ◌≤◌, ◌++◌, ℕ, List, IfOk, OnOk};
ghost use Rattle.sbe_types.specs.declared.limits.TheConstants.{PLACE_LIMIT};
ghost use Rattle.sbe_types.specs.Places.{fields_end};
ghost use Rattle.sbe_types.specs.declared.tree.PartItem as part;
ghost use Rattle.sbe_types.specs.declared.schema.Field.{Field};
ghost use Rattle.sbe_types.specs.declared.schema.Group.{Group};
ghost use Rattle.sbe_types.specs.declared.schema.DataField.{DataField};
ghost use Rattle.schema_rules.specs.Kinds.{kind_named, members_of, members_named};
ghost use Rattle.schema_rules.specs.Resolved.{resolved_field, resolved_data, no_length, length_in, with_field, with_data, with_group, list_fields, list_groups, list_data, resolved_message, block_of};
ghost use Rattle.schema_facts.specs.Ends.{end_with, parts_end, resolved_group};
ghost use Rattle.schema_check.specs.Reach.{IsShortPart, AreShortParts, IsShortLevel};
ghost use Rattle.schema_check.specs.Entries.{resolved_entries};

use lists::{List, NoMem};
use sbe_types::{
    DataEl, DataField, DataFieldList, Field, FieldEl, FieldList, Group, GroupEl, GroupList, Leaf,
    LeafShape, Level, MemberItem, MessageEl, PartItem, Presence, Prim,
};
use std::alloc::Global;
use type_check::field_fact;
use type_facts::{Declarations, Types, past};
use type_kinds::{Resolver, leaf_of_member, members_named};

/// A message with every type name resolved.
pub fn resolve_message(
    alloc: Global,
    resolver: &Resolver,
    message: &MessageEl,
) -> Result<Level, NoMem>
    requires { IsShortLevel resolver.now message.now.children }
    ensures { IfOk result (λ level. level ≡ resolved_message resolver.now message.now) }
{
    let parts = message.children.as_slice();
    Ok(Level {
        name: List::from_slice(alloc, message.name.as_slice())?,
        id: message.id,
        semantic: List::from_slice(alloc, message.semantic_type.as_slice())?,
        since: 0,
        block_length: block_length(resolver.known(), message.block_length, parts),
        fields: resolve_fields(alloc, resolver, 0, parts)?,
        groups: resolve_groups(alloc, resolver, 0, parts)?,
        parts: resolve_all_data(alloc, resolver, 0, parts)?,
    })
}

/// The stated block length, else the end of the fields.
fn block_length(known: &Declarations, stated: Option<u32>, parts: &[PartItem]) -> u32
    requires { parts_end known.now 0 parts.now ≤ PLACE_LIMIT }
    ensures { (since : ℕ) → result ≡ block_of stated (list_fields (record { types = known.now; since = since }) parts.now) }
{
    match stated {
        Some(length) => length,
        None => fields_end(known, parts),
    }
}

fn fields_end(known: &Declarations, parts: &[PartItem]) -> u32
    requires { parts_end known.now 0 parts.now ≤ PLACE_LIMIT }
    ensures { (since : ℕ) → result ≡ fields_end 0 (list_fields (record { types = known.now; since = since }) parts.now) }
{
    parts_end(known, parts) as u32
}

fn parts_end(known: &Declarations, parts: &[PartItem]) -> u64
    ensures { result ≡ parts_end known.now 0 parts.now }
{
    let mut end = 0;
    for part in parts {
        end = end_with(known, end, part);
    }
    end
}

fn end_with(known: &Declarations, end: u64, part: &PartItem) -> u64
    ensures { result ≡ end_with known.now end part.now }
{
    match part {
        PartItem::Field(f) => past(end, f.offset, field_fact(known, f)),
        PartItem::Group(_) | PartItem::Data(_) => end,
    }
}

fn resolve_fields(
    alloc: Global,
    resolver: &Resolver,
    since: u32,
    parts: &[PartItem],
) -> Result<FieldList, NoMem>
    ensures { IfOk result (λ fields. fields ≡ list_fields (record { types = resolver.now; since = since }) parts.now) }
{
    let mut fields = List::new(alloc);
    for part in parts {
        push_field(alloc, resolver, since, part, &mut fields)?;
    }
    Ok(fields)
}

fn push_field(
    alloc: Global,
    resolver: &Resolver,
    since: u32,
    part: &PartItem,
    fields: &mut FieldList,
) -> Result<(), NoMem>
    ensures { (rest : List Field) → OnOk result (fields.new ++ rest ≡ fields.old ++ with_field (record { types = resolver.now; since = since }) part.now rest) }
{
    match part {
        PartItem::Field(f) => fields.push(resolve_field(alloc, resolver, since, f)?),
        PartItem::Group(_) | PartItem::Data(_) => Ok(()),
    }
}

fn resolve_field(
    alloc: Global,
    resolver: &Resolver,
    since: u32,
    field: &FieldEl,
) -> Result<Field, NoMem>
    ensures { IfOk result (λ made. made ≡ resolved_field (record { types = resolver.now; since = since }) field.now) }
{
    Ok(Field {
        name: List::from_slice(alloc, field.name.as_slice())?,
        id: field.id,
        since: since.max(field.since_version),
        offset: field.offset,
        kind: resolver.field_kind(alloc, field)?,
    })
}

fn resolve_all_data(
    alloc: Global,
    resolver: &Resolver,
    since: u32,
    parts: &[PartItem],
) -> Result<DataFieldList, NoMem>
    ensures { IfOk result (λ all. all ≡ list_data (record { types = resolver.now; since = since }) parts.now) }
{
    let mut all = List::new(alloc);
    for part in parts {
        push_data(alloc, resolver, since, part, &mut all)?;
    }
    Ok(all)
}

fn push_data(
    alloc: Global,
    resolver: &Resolver,
    since: u32,
    part: &PartItem,
    all: &mut DataFieldList,
) -> Result<(), NoMem>
    ensures { (rest : List DataField) → OnOk result (all.new ++ rest ≡ all.old ++ with_data (record { types = resolver.now; since = since }) part.now rest) }
{
    match part {
        PartItem::Data(d) => all.push(resolve_data(alloc, resolver, since, d)?),
        PartItem::Field(_) | PartItem::Group(_) => Ok(()),
    }
}

fn resolve_data(
    alloc: Global,
    resolver: &Resolver,
    since: u32,
    data_el: &DataEl,
) -> Result<DataField, NoMem>
    ensures { IfOk result (λ made. made ≡ resolved_data (record { types = resolver.now; since = since }) data_el.now) }
{
    Ok(DataField {
        name: List::from_slice(alloc, data_el.name.as_slice())?,
        id: data_el.id,
        since: since.max(data_el.since_version),
        length: length_of(resolver.known().types(), data_el.type_name.as_slice()),
    })
}

/// The type of the length of a data part: the first member of the data's type.
fn length_of(types: &Types, name: &[u8]) -> Leaf
    ensures { result ≡ length_in (members_named types.now name.now) }
{
    let members = members_named(types, name);
    length_in(types, members)
}

fn length_in(types: &Types, members: &[MemberItem]) -> Leaf
    ensures { result ≡ length_in (members_of types.now (kind_named types.now) members.now) }
{
    match members {
        [] => no_length(),
        [first, ..] => match leaf_of_member(types, first) {
            Some(leaf) => leaf,
            None => no_length(),
        },
    }
}

/// A placeholder where no length is known. An accepted schema has none.
fn no_length() -> Leaf
    ensures { result ≡ no_length }
{
    Leaf {
        prim: Prim::U8,
        length: 1,
        shape: LeafShape::Number,
        presence: Presence::Required,
        null: 255,
        low: 0,
        high: 254,
    }
}

#[cycle(groups)]
fn resolve_groups(
    alloc: Global,
    resolver: &Resolver,
    since: u32,
    parts: &[PartItem],
) -> Result<GroupList, NoMem>
    requires { AreShortParts resolver.now parts.now }
    ensures { IfOk result (λ groups. groups ≡ list_groups (record { types = resolver.now; since = since }) parts.now) }
{
    let mut groups = List::new(alloc);
    for part in parts {
        push_group(alloc, resolver, since, part, &mut groups)?;
    }
    Ok(groups)
}

#[cycle(groups)]
fn push_group(
    alloc: Global,
    resolver: &Resolver,
    since: u32,
    part: &PartItem,
    groups: &mut GroupList,
) -> Result<(), NoMem>
    requires { IsShortPart resolver.now part.now }
    ensures { (rest : List Group) → OnOk result (groups.new ++ rest ≡ groups.old ++ with_group (record { types = resolver.now; since = since }) part.now rest) }
{
    match part {
        PartItem::Group(g) => groups.push(resolve_group(alloc, resolver, since, g)?),
        PartItem::Field(_) | PartItem::Data(_) => Ok(()),
    }
}

/// A group with its dimension and the level of its entries.
#[cycle(groups)]
#[tactic(auto, using(crate::proofs::ReachLemmas::group_fields, crate::proofs::ReachLemmas::group_groups))]
fn resolve_group(
    alloc: Global,
    resolver: &Resolver,
    since: u32,
    group: &GroupEl,
) -> Result<Group, NoMem>
    requires { IsShortPart resolver.now (part.Group group.now) }
    ensures { IfOk result (λ made. made ≡ resolved_group (record { types = resolver.now; since = since }) group.now) }
{
    Ok(Group {
        dim: resolver.members_named(alloc, group.dimension_type.as_slice())?,
        level: resolve_entries(alloc, resolver, since.max(group.since_version), group)?,
    })
}

/// The level of a group's entries, which begins at this version.
#[cycle(groups)]
fn resolve_entries(
    alloc: Global,
    resolver: &Resolver,
    since: u32,
    group: &GroupEl,
) -> Result<Level, NoMem>
    requires fields { parts_end resolver.now 0 group.now.children ≤ PLACE_LIMIT }
    requires groups { AreShortParts resolver.now group.now.children }
    ensures { IfOk result (λ level. level ≡ resolved_entries (record { types = resolver.now; since = since }) group.now) }
{
    let parts = group.children.as_slice();
    Ok(Level {
        name: List::from_slice(alloc, group.name.as_slice())?,
        id: group.id,
        semantic: List::new(alloc),
        since,
        block_length: block_length(resolver.known(), group.block_length, parts),
        fields: resolve_fields(alloc, resolver, since, parts)?,
        groups: resolve_groups(alloc, resolver, since, parts)?,
        parts: resolve_all_data(alloc, resolver, since, parts)?,
    })
}
