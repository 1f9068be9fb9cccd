ghost use Rattle.std.specs.Prelude.{◌≡◌, map, length, Some, IfOk};
ghost use Rattle.std.specs.List.{list_any};
ghost use Rattle.schema_rules.specs.Chains.{is_composite, member_has, composite_has, item_goes_on};
ghost use Rattle.type_facts.specs.Tables.{table_chain, chain_round};

use crate::types::Types;
use lists::{List, NoMem};
use sbe_types::{CompositeEl, MemberItem, TypesItem};
use std::alloc::Global;

/// For each declared type, whether chains of composites that begin at it are endless.
pub type Chains = List<bool>;

/// Whether a chain that begins at a member continues, given a table for the declared types.
#[cycle(chains)]
fn goes_member_on(types: &Types, table: &[bool], member: &MemberItem) -> bool
    ensures { result ≡ member_has (table_chain types.now table.now) member.now }
{
    match member {
        MemberItem::Type(_) | MemberItem::Enum(_) | MemberItem::Set(_) => false,
        MemberItem::Ref(r) => chain_in(types, table, r.type_name.as_slice()),
        MemberItem::Composite(c) => go_members_on(types, table, c.children.as_slice()),
    }
}

#[cycle(chains)]
fn go_members_on(types: &Types, table: &[bool], members: &[MemberItem]) -> bool
    ensures { result ≡ list_any (member_has (table_chain types.now table.now)) members.now }
{
    for member in members {
        if goes_member_on(types, table, member) {
            return true;
        }
    }
    false
}

/// Whether a chain that begins at a composite continues.
pub fn goes_composite_on(types: &Types, table: &[bool], composite: &CompositeEl) -> bool
    ensures { result ≡ composite_has (table_chain types.now table.now) composite.now }
{
    go_members_on(types, table, composite.children.as_slice())
}

fn chain_in(types: &Types, table: &[bool], name: &[u8]) -> bool
    ensures { result ≡ table_chain types.now table.now name.now }
{
    match types.place(name) {
        Some(i) => table.get(i).copied().unwrap_or(false),
        None => false,
    }
}

fn goes_on(types: &Types, table: &[bool], item: &TypesItem) -> bool
    ensures { result ≡ item_goes_on (table_chain types.now table.now) (Some item.now) }
{
    match item {
        TypesItem::Composite(c) => goes_composite_on(types, table, c),
        TypesItem::Type(_) | TypesItem::Enum(_) | TypesItem::Set(_) => false,
    }
}

fn is_composite(item: &TypesItem) -> bool
    ensures { result ≡ is_composite (Some item.now) }
{
    match item {
        TypesItem::Composite(_) => true,
        TypesItem::Type(_) | TypesItem::Enum(_) | TypesItem::Set(_) => false,
    }
}

/// The first table: which types are composites.
fn first_round(alloc: Global, types: &Types) -> Result<Chains, NoMem>
    ensures { IfOk result (λ table. table ≡ map (λ t. is_composite (Some t)) types.now) }
{
    let mut table = List::new(alloc);
    for item in types.as_slice() {
        table.push(is_composite(item))?;
    }
    Ok(table)
}

/// The table for chains of one more name.
fn next_round(alloc: Global, types: &Types, table: &[bool]) -> Result<Chains, NoMem>
    ensures { IfOk result (λ next. next ≡ map (λ t. item_goes_on (table_chain types.now table.now) (Some t)) types.now) }
{
    let mut next = List::new(alloc);
    for item in types.as_slice() {
        next.push(goes_on(types, table, item))?;
    }
    Ok(next)
}

/// For each declared type, whether chains from it have more names than there are types. Each round follows one more
/// name; a round that changes nothing is the last.
pub fn find_chains(alloc: Global, types: &Types) -> Result<Chains, NoMem>
    ensures { IfOk result (λ table. table ≡ chain_round (length types.now) types.now) }
{
    let mut table = first_round(alloc, types)?;
    'rounds: for done in 0..types.as_slice().len() {
        let next = next_round(alloc, types, table.as_slice())?;
        if next.as_slice() == table.as_slice() {
            return Ok(table);
        }
        table = next;
    }
    Ok(table)
}
