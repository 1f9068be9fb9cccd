ghost use Rattle.std.specs.Prelude.{◌≡◌, ◌==◌, codes, List, unwrap_or};
ghost use Rattle.std.specs.Prelude.{◌&&◌};
ghost use Rattle.sbe_types.specs.Numbers.{prim_width};
ghost use Rattle.sbe_types.specs.declared.tree.TypesItem.{TypesItem};
ghost use Rattle.schema_rules.specs.Names.{type_named};
ghost use Rattle.schema_rules.specs.Kinds.{as_declared, type_over, type_kind, kind_named, member_kind, members_of, members_named};
ghost use Rattle.schema_rules.specs.Counters.{leaf_in, is_counter_primitive, is_counter, has_counter, has_both, is_header, is_dimension, is_body_primitive, are_length_and_body, is_data, holds_in, holds};
ghost use Rattle.type_kinds.specs.Leaves.{found_leaf};

use sbe_types::{Leaf, MemberItem, Presence, Prim, TypeEl, TypesItem};
use type_facts::{Types, effective, integral, is_number_of, leaf_of, member_name, offset_of};

/// The members of the composite that a name stands for. If it isn't a composite, there are none.
pub fn members_named<'a>(types: &'a Types, name: &[u8]) -> &'a [MemberItem]
    ensures { members_of types.now (kind_named types.now) result.now ≡ members_named types.now name.now }
{
    match types.named(name) {
        Some(TypesItem::Composite(c)) => c.children.as_slice(),
        _ => &[],
    }
}

/// Whether these are the members of a message header.
pub fn is_header(types: &Types, members: &[MemberItem]) -> bool
    ensures { result ≡ is_header (members_of types.now (kind_named types.now) members.now) }
{
    members.len() == 4
        && has_both(types, members, "blockLength", "templateId")
        && has_both(types, members, "schemaId", "version")
}

/// Whether these are the members of the dimension of a group.
pub fn is_dimension(types: &Types, members: &[MemberItem]) -> bool
    ensures { result ≡ is_dimension (members_of types.now (kind_named types.now) members.now) }
{
    members.len() == 2 && has_both(types, members, "blockLength", "numInGroup")
}

fn has_both(types: &Types, members: &[MemberItem], one: &str, other: &str) -> bool
    ensures { result ≡ has_both (members_of types.now (kind_named types.now) members.now) one.now other.now }
{
    has_counter(types, members, one.as_bytes()) && has_counter(types, members, other.as_bytes())
}

fn has_counter(types: &Types, members: &[MemberItem], name: &[u8]) -> bool
    ensures { result ≡ has_counter (members_of types.now (kind_named types.now) members.now) name.now }
{
    for member in members {
        if name == member_name(member) && is_counter(leaf_of_member(types, member)) {
            return true;
        }
    }
    false
}

fn is_counter(leaf: Option<Leaf>) -> bool
    ensures { result ≡ is_counter leaf }
{
    match leaf {
        Some(l) => is_counter_primitive(l.prim) && l.length == 1,
        None => false,
    }
}

fn is_counter_primitive(prim: Prim) -> bool
    ensures { result ≡ is_counter_primitive prim }
{
    match prim {
        Prim::U8 | Prim::U16 | Prim::U32 => true,
        Prim::U64 | Prim::Char | Prim::I8 | Prim::I16 | Prim::I32 | Prim::I64 => false,
    }
}

/// Whether these are the members of a type of data.
pub fn is_data(types: &Types, members: &[MemberItem]) -> bool
    ensures { result ≡ is_data (members_of types.now (kind_named types.now) members.now) }
{
    match members {
        [length, body] => {
            "length".as_bytes() == member_name(length)
                && "varData".as_bytes() == member_name(body)
                && offset_of(length).unwrap_or(0) == 0
                && are_length_and_body(
                    leaf_of_member(types, length),
                    leaf_of_member(types, body),
                    offset_of(body),
                )
        }
        _ => false,
    }
}

fn are_length_and_body(length: Option<Leaf>, body: Option<Leaf>, offset: Option<u32>) -> bool
    ensures { result ≡ are_length_and_body length body offset }
{
    match length {
        Some(l) => match body {
            Some(b) => is_counter(Some(l)) && is_body(b) && is_behind(l.prim, offset),
            None => false,
        },
        None => false,
    }
}

fn is_body(b: Leaf) -> bool
    ensures { result ≡ (is_body_primitive b.prim && b.length == 0) }
{
    is_body_primitive(b.prim) && b.length == 0
}

fn is_body_primitive(prim: Prim) -> bool
    ensures { result ≡ is_body_primitive prim }
{
    match prim {
        Prim::U8 | Prim::Char => true,
        Prim::U16 | Prim::U32 | Prim::U64 | Prim::I8 | Prim::I16 | Prim::I32 | Prim::I64 => false,
    }
}

fn is_behind(prim: Prim, offset: Option<u32>) -> bool
    ensures { result ≡ (unwrap_or offset (prim_width prim) == prim_width prim) }
{
    match offset {
        Some(begin) => begin as usize == prim.width(),
        None => true,
    }
}

/// Whether the member with this name can hold the number.
pub fn holds(types: &Types, members: &[MemberItem], name: &[u8], n: u32) -> bool
    ensures { result ≡ holds (members_of types.now (kind_named types.now) members.now) name.now n }
{
    for member in members {
        if name == member_name(member) && holds_in(leaf_of_member(types, member), n) {
            return true;
        }
    }
    false
}

fn holds_in(leaf: Option<Leaf>, n: u32) -> bool
    ensures { result ≡ holds_in leaf n }
{
    match leaf {
        Some(l) => is_number_of(l.prim, n as i128),
        None => false,
    }
}

/// The leaf of a member, if it is one.
#[tactic(auto, using(crate::proofs::LeafLemmas::named_leaf, crate::proofs::LeafLemmas::enum_leafless, crate::proofs::LeafLemmas::set_leafless))]
pub fn leaf_of_member(types: &Types, member: &MemberItem) -> Option<Leaf>
    ensures { result ≡ leaf_in (member_kind types.now (kind_named types.now) member.now) }
{
    match member {
        MemberItem::Type(t) => type_leaf(t),
        MemberItem::Ref(r) => leaf_named(types, r.type_name.as_slice()),
        MemberItem::Enum(_) => None,
        MemberItem::Set(_) => None,
        MemberItem::Composite(_) => None,
    }
}

fn leaf_named(types: &Types, name: &[u8]) -> Option<Leaf>
    ensures { result ≡ found_leaf types.now (type_named types.now name.now) }
{
    match types.named(name) {
        Some(TypesItem::Type(t)) => type_leaf(t),
        _ => None,
    }
}

fn type_leaf(t: &TypeEl) -> Option<Leaf>
    ensures { (types : List TypesItem) → result ≡ leaf_in (type_kind types as_declared t.now) }
{
    match integral(t.primitive_type) {
        Some(prim) => leaf_with(prim, effective(None, t.presence), t),
        None => None,
    }
}

fn leaf_with(prim: Prim, presence: Presence, t: &TypeEl) -> Option<Leaf>
    ensures { (types : List TypesItem) → result ≡ leaf_in (type_over types as_declared t.now prim presence) }
{
    match presence {
        Presence::Constant => None,
        Presence::Required => Some(leaf_of(prim, Presence::Required, t)),
        Presence::Optional => Some(leaf_of(prim, Presence::Optional, t)),
    }
}
