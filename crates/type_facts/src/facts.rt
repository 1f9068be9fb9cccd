ghost use Rattle.std.specs.Prelude.{◌≡◌, ◌+◌, ◌*◌, map, IfOk, slice_get, option_and_then};
ghost use Rattle.schema_rules.specs.Names.{place_of, plain_named};
ghost use Rattle.sbe_types.specs.Numbers.{prim_width};
ghost use Rattle.schema_rules.specs.Kinds.{member_offset};
ghost use Rattle.schema_rules.specs.Facts.{counted, no_fact, simple_fact, type_fact, enum_fact_in, enum_fact, set_fact_in, set_fact, past, no_members, with_member, member_fact, members_fact, item_fact, primitive_fact_in, fact_named};
ghost use Rattle.type_facts.specs.Tables.{table_fact, fact_round};

use crate::encodings::{effective, encoding_named, integral};
use crate::types::Types;
use lists::{List, NoMem};
use sbe_types::{CompositeEl, EnumEl, MemberItem, Presence, SetEl, TypeEl, TypesItem};
use schema_rules::{Encoding, Fact};
use std::alloc::Global;

/// The facts of the declared types, in their order.
pub type Facts = List<Fact>;

/// The facts of an unknown type.
pub const UNKNOWN: Fact = Fact {
    is_fixed: true,
    width: 0,
    leaves: 1,
    height: 0,
    holds_empty: false,
};

/// The facts of a composite without members.
pub const NO_MEMBERS: Fact = Fact {
    is_fixed: false,
    width: 0,
    leaves: 0,
    height: 1,
    holds_empty: false,
};

/// The sum, saturated at the number that stands for everything larger.
fn counted_sum(a: u64, b: u64) -> u64
    ensures { result ≡ counted (a + b) }
{
    a.saturating_add(b).min(4_294_967_296)
}

/// The facts of a `type`. `own`, if given, overrides its presence.
pub fn type_fact(own: Option<Presence>, t: &TypeEl) -> Fact
    ensures { result ≡ type_fact own t.now }
{
    match integral(t.primitive_type) {
        Some(prim) => simple_fact(
            t.length == 0,
            effective(own, t.presence),
            prim.width() as u64 * t.length as u64,
        ),
        None => UNKNOWN,
    }
}

/// The facts of a type that isn't a composite.
fn simple_fact(empty: bool, presence: Presence, width: u64) -> Fact
    ensures { result ≡ simple_fact empty presence width }
{
    let is_fixed = presence == Presence::Constant;
    Fact {
        is_fixed,
        width: if is_fixed { 0 } else { width },
        leaves: 1,
        height: 0,
        holds_empty: empty,
    }
}

/// The facts of an enum. `own`, if given, overrides the presence of its encoding type.
pub fn enum_fact(types: &Types, own: Option<Presence>, e: &EnumEl) -> Fact
    ensures { result ≡ enum_fact types.now own e.now }
{
    enum_fact_in(own, encoding_named(types, e.encoding_type.as_slice()))
}

fn enum_fact_in(own: Option<Presence>, encoding: Option<Encoding>) -> Fact
    ensures { result ≡ enum_fact_in own encoding }
{
    match encoding {
        Some(e) => simple_fact(
            false,
            effective(own, e.presence),
            e.leaf.prim.width() as u64,
        ),
        None => UNKNOWN,
    }
}

/// The facts of a set.
pub fn set_fact(types: &Types, s: &SetEl) -> Fact
    ensures { result ≡ set_fact types.now s.now }
{
    set_fact_in(encoding_named(types, s.encoding_type.as_slice()))
}

fn set_fact_in(encoding: Option<Encoding>) -> Fact
    ensures { result ≡ set_fact_in encoding }
{
    match encoding {
        Some(e) => simple_fact(false, Presence::Required, e.leaf.prim.width() as u64),
        None => UNKNOWN,
    }
}

/// The end of the parts when one more is added to those that end at `reached`.
pub fn past(reached: u64, offset: Option<u32>, fact: Fact) -> u64
    ensures { result ≡ past reached offset fact }
{
    if fact.is_fixed {
        return reached;
    }
    match offset {
        Some(begin) => counted_sum(begin as u64, fact.width),
        None => counted_sum(reached, fact.width),
    }
}

/// The facts of a composite when one more member is added.
pub fn with_member(all: Fact, offset: Option<u32>, fact: Fact) -> Fact
    ensures { result ≡ with_member all offset fact }
{
    Fact {
        is_fixed: false,
        width: past(all.width, offset, fact),
        leaves: counted_sum(all.leaves, fact.leaves),
        height: counted_sum(all.height.max(counted_sum(1, fact.height)), 0),
        holds_empty: all.holds_empty || fact.holds_empty,
    }
}

/// The offset that a member states.
pub fn offset_of(member: &MemberItem) -> Option<u32>
    ensures { result ≡ member_offset member.now }
{
    match member {
        MemberItem::Type(t) => t.offset,
        MemberItem::Enum(e) => e.offset,
        MemberItem::Set(s) => s.offset,
        MemberItem::Ref(r) => r.offset,
        MemberItem::Composite(c) => c.offset,
    }
}

/// The facts of a member, given a table of those of the declared types.
#[cycle(facts)]
pub fn member_fact(types: &Types, table: &[Fact], member: &MemberItem) -> Fact
    ensures { result ≡ member_fact types.now (table_fact types.now table.now) member.now }
{
    match member {
        MemberItem::Type(t) => type_fact(None, t),
        MemberItem::Enum(e) => enum_fact(types, None, e),
        MemberItem::Set(s) => set_fact(types, s),
        MemberItem::Ref(r) => fact_in(types, table, r.type_name.as_slice()),
        MemberItem::Composite(c) => members_fact(types, table, c.children.as_slice()),
    }
}

#[cycle(facts)]
fn members_fact(types: &Types, table: &[Fact], members: &[MemberItem]) -> Fact
    ensures { result ≡ members_fact types.now (table_fact types.now table.now) no_members members.now }
{
    let mut all = NO_MEMBERS;
    for member in members {
        all = with_member(all, offset_of(member), member_fact(types, table, member));
    }
    all
}

/// The facts of the type that a name stands for, given a table of those of the declared types.
pub fn fact_in(types: &Types, table: &[Fact], name: &[u8]) -> Fact
    ensures { result ≡ table_fact types.now table.now name.now }
{
    match declared_fact(types, table, name) {
        Some(fact) => fact,
        None => primitive_fact(types, name),
    }
}

fn declared_fact(types: &Types, table: &[Fact], name: &[u8]) -> Option<Fact>
    ensures { result ≡ option_and_then (slice_get table.now) (place_of name.now types.now) }
{
    match types.place(name) {
        Some(i) => table.get(i).copied(),
        None => None,
    }
}

fn primitive_fact(types: &Types, name: &[u8]) -> Fact
    ensures { result ≡ primitive_fact_in (plain_named name.now) }
{
    match types.plain_named(name) {
        Some(TypesItem::Type(t)) => type_fact(None, t),
        _ => UNKNOWN,
    }
}

fn item_fact(types: &Types, table: &[Fact], item: &TypesItem) -> Fact
    ensures { result ≡ item_fact types.now (table_fact types.now table.now) item.now }
{
    match item {
        TypesItem::Type(t) => type_fact(None, t),
        TypesItem::Enum(e) => enum_fact(types, None, e),
        TypesItem::Set(s) => set_fact(types, s),
        TypesItem::Composite(c) => members_fact(types, table, c.children.as_slice()),
    }
}

/// The table for one more name.
fn next_round(alloc: Global, types: &Types, table: &[Fact]) -> Result<Facts, NoMem>
    ensures { IfOk result (λ next. next ≡ map (item_fact types.now (table_fact types.now table.now)) types.now) }
{
    let mut next = List::new(alloc);
    for item in types.as_slice() {
        next.push(item_fact(types, table, item))?;
    }
    Ok(next)
}

/// The facts of each declared type, through as many names as an accepted schema nests.
pub fn find_facts(alloc: Global, types: &Types) -> Result<Facts, NoMem>
    ensures { IfOk result (λ table. table ≡ fact_round 5 types.now) }
{
    let mut table = List::new(alloc);
    'blank: for _ in types.as_slice() {
        table.push(UNKNOWN)?;
    }
    'rounds: for done in 0..5u32 {
        table = next_round(alloc, types, table.as_slice())?;
    }
    Ok(table)
}
