// Whether two levels are equal.
ghost use Rattle.std.specs.Prelude.{◌≡◌, ◌↔◌, IsTrue};
ghost use Rattle.sbe_types.specs.declared.schema.Level.{out-Level};

use lists::List;
use sbe_types::{
    DataField, DataFieldList, Field, FieldList, Group, Leaf, Level, Member, MemberList,
};
use type_kinds::is_same_kind;

/// Whether two levels are equal, at all depths.
#[cycle(levels)]
pub fn is_same_level(a: &Level, b: &Level) -> bool
    ensures { IsTrue result ↔ (a.now ≡ b.now) }
{
    if !is_same_head(a, b) {
        return false;
    }
    if !are_same_fields(&a.fields, &b.fields) {
        return false;
    }
    if !are_same_parts(&a.parts, &b.parts) {
        return false;
    }
    are_same_groups(&a.groups, &b.groups)
}

/// Whether two levels have the same name, id, meaning, version and block length.
fn is_same_head(a: &Level, b: &Level) -> bool
    ensures { IsTrue result ↔ (((out-Level a.now).name ≡ (out-Level b.now).name) × ((out-Level a.now).semantic ≡ (out-Level b.now).semantic)
        × ((out-Level a.now).id ≡ (out-Level b.now).id) × ((out-Level a.now).since ≡ (out-Level b.now).since)
        × ((out-Level a.now).block_length ≡ (out-Level b.now).block_length)) }
{
    a.name.as_slice() == b.name.as_slice()
        && a.semantic.as_slice() == b.semantic.as_slice()
        && a.id == b.id
        && a.since == b.since
        && a.block_length == b.block_length
}

/// Whether two lists of groups are equal.
#[cycle(levels)]
fn are_same_groups(a: &List<Group>, b: &List<Group>) -> bool
    ensures { IsTrue result ↔ (a.now ≡ b.now) }
{
    if a.len() != b.len() {
        return false;
    }
    for i in 0..a.len() {
        if !is_same_group(a.at(i), b.at(i)) {
            return false;
        }
    }
    true
}

#[cycle(levels)]
fn is_same_group(a: &Group, b: &Group) -> bool
    ensures { IsTrue result ↔ (a.now ≡ b.now) }
{
    are_same_members(&a.dim, &b.dim) && is_same_level(&a.level, &b.level)
}

/// Whether two lists of members are equal.
fn are_same_members(a: &MemberList, b: &MemberList) -> bool
    ensures { IsTrue result ↔ (a.now ≡ b.now) }
{
    if a.len() != b.len() {
        return false;
    }
    for i in 0..a.len() {
        if !is_same_member(a.at(i), b.at(i)) {
            return false;
        }
    }
    true
}

fn is_same_member(a: &Member, b: &Member) -> bool
    ensures { IsTrue result ↔ (a.now ≡ b.now) }
{
    a.name.as_slice() == b.name.as_slice() && a.offset == b.offset && is_same_kind(&a.kind, &b.kind)
}

/// Whether two lists of fields are equal.
fn are_same_fields(a: &FieldList, b: &FieldList) -> bool
    ensures { IsTrue result ↔ (a.now ≡ b.now) }
{
    if a.len() != b.len() {
        return false;
    }
    for i in 0..a.len() {
        if !is_same_field(a.at(i), b.at(i)) {
            return false;
        }
    }
    true
}

fn is_same_field(a: &Field, b: &Field) -> bool
    ensures { IsTrue result ↔ (a.now ≡ b.now) }
{
    a.name.as_slice() == b.name.as_slice()
        && a.id == b.id
        && a.since == b.since
        && a.offset == b.offset
        && is_same_kind(&a.kind, &b.kind)
}

/// Whether two lists of data parts are equal.
fn are_same_parts(a: &DataFieldList, b: &DataFieldList) -> bool
    ensures { IsTrue result ↔ (a.now ≡ b.now) }
{
    if a.len() != b.len() {
        return false;
    }
    for i in 0..a.len() {
        if !is_same_part(a.at(i), b.at(i)) {
            return false;
        }
    }
    true
}

fn is_same_part(a: &DataField, b: &DataField) -> bool
    ensures { IsTrue result ↔ (a.now ≡ b.now) }
{
    a.name.as_slice() == b.name.as_slice()
        && a.id == b.id
        && a.since == b.since
        && is_same_leaf(&a.length, &b.length)
}

fn is_same_leaf(a: &Leaf, b: &Leaf) -> bool
    ensures { IsTrue result ↔ (a.now ≡ b.now) }
{
    is_same_type(a, b) && is_same_range(a, b)
}

fn is_same_type(a: &Leaf, b: &Leaf) -> bool
    ensures { IsTrue result ↔ ((a.now.prim ≡ b.now.prim) × (a.now.length ≡ b.now.length) × (a.now.shape ≡ b.now.shape)) }
{
    a.prim == b.prim && a.length == b.length && a.shape == b.shape
}

fn is_same_range(a: &Leaf, b: &Leaf) -> bool
    ensures { IsTrue result ↔ ((a.now.presence ≡ b.now.presence) × (a.now.null ≡ b.now.null) × (a.now.low ≡ b.now.low) × (a.now.high ≡ b.now.high)) }
{
    a.presence == b.presence && a.null == b.null && a.low == b.low && a.high == b.high
}
