ghost use Rattle.std.specs.Prelude.{◌≡◌, ◌+◌, ◌==◌, min, false, codes, OnOk};
ghost use Rattle.sbe_types.specs.declared.tree.MemberItem as part;
ghost use Rattle.schema_rules.specs.Judging.{Gives, first_of, at_element};
ghost use Rattle.schema_rules.specs.Names.{is_among};
ghost use Rattle.schema_rules.specs.Kinds.{member_name, member_offset};
ghost use Rattle.schema_rules.specs.CompositeRules.{no_member, member_since, begins_early, member_rules, ref_rules, is_too_high, names_too_high, names_constant_enum, first_rules, last_rules, composite_rules, entered, member_check, members_check, composite_check};
ghost use Rattle.type_check.specs.CompositeCheck.{made_of, inner_check};

use crate::name_table::NameTable;
use crate::refusals::{at_element, refuse};
use crate::type_rules::{judge_type, judge_type_constant};
use crate::value_rules::{judge_enum, judge_set, names_fraction};
use sbe_types::{CompositeEl, MemberItem, RefEl, TypesItem};
use schema_rules::{CCode, CheckErr, Fact};
use std::alloc::Global;
use type_facts::{
    Declarations, NO_MEMBERS, enum_fact, member_name, member_since, offset_of, with_member,
};

/// Checks a declared composite and its members.
pub fn judge_composite(
    alloc: Global,
    known: &Declarations,
    composite: &CompositeEl,
) -> Result<(), CheckErr>
    ensures { Gives result (composite_check known.now composite.now) }
{
    if known.is_endless(composite) {
        return refuse(alloc, CCode::Cycle);
    }
    let all = judge_members(alloc, known, 1, composite.children.as_slice())?;
    judge_whole(alloc, 0, all)
}

/// Checks the members of a composite that has `around` composites around them, and returns the facts of that composite.
#[cycle(members)]
fn judge_members(
    alloc: Global,
    known: &Declarations,
    around: u8,
    members: &[MemberItem],
) -> Result<Fact, CheckErr>
    ensures { Gives result (made_of (members_check (record { types = known.now; around = around }) no_member members.now)) }
{
    let mut names = NameTable::new(alloc);
    let mut all = NO_MEMBERS;
    for member in members {
        judge_named(alloc, known, around, &names, all, member)?;
        names.push(alloc, member_name(member))?;
        all = with_member(all, offset_of(member), known.fact_of(member));
    }
    Ok(all)
}

#[cycle(members)]
fn judge_named(
    alloc: Global,
    known: &Declarations,
    around: u8,
    names: &NameTable,
    all: Fact,
    member: &MemberItem,
) -> Result<(), CheckErr>
    ensures judged { Gives result (at_element (codes ".") (member_name member.now) (member_check (record { types = known.now; around = around }) (record { names = names.now; all = all }) member.now)) }
    ensures new { OnOk result (is_among names.now (member_name member.now) ≡ false) }
{
    match judge_member(alloc, known, around, names, all, member) {
        Ok(()) => Ok(()),
        Err(e) => Err(at_element(alloc, ".", member_name(member), e)),
    }
}

#[cycle(members)]
fn judge_member(
    alloc: Global,
    known: &Declarations,
    around: u8,
    names: &NameTable,
    all: Fact,
    member: &MemberItem,
) -> Result<(), CheckErr>
    ensures judged { Gives result (member_check (record { types = known.now; around = around }) (record { names = names.now; all = all }) member.now) }
    ensures new { OnOk result (is_among names.now (member_name member.now) ≡ false) }
{
    judge_entered(alloc, known, around, names, all, member)?;
    match member {
        MemberItem::Composite(c) => judge_inner(alloc, known, around, c),
        MemberItem::Type(_) | MemberItem::Enum(_) | MemberItem::Set(_) | MemberItem::Ref(_) => {
            Ok(())
        }
    }
}

/// Checks what is nested in a composite that has `around` composites around it.
#[cycle(members)]
fn judge_inner(
    alloc: Global,
    known: &Declarations,
    around: u8,
    composite: &CompositeEl,
) -> Result<(), CheckErr>
    ensures { Gives result (inner_check (record { types = known.now; around = around }) composite.now.children) }
{
    let all = judge_members(alloc, known, deeper(around), composite.children.as_slice())?;
    judge_whole(alloc, around, all)
}

/// Applies the rules for a member that are tried before those for what is nested in it.
fn judge_entered(
    alloc: Global,
    known: &Declarations,
    around: u8,
    names: &NameTable,
    all: Fact,
    member: &MemberItem,
) -> Result<(), CheckErr>
    ensures judged { Gives result (entered (record { types = known.now; around = around }) (record { names = names.now; all = all }) member.now) }
    ensures new { OnOk result (is_among names.now (member_name member.now) ≡ false) }
{
    judge_first(alloc, known, member)?;
    judge_place(alloc, known, names, all, member)?;
    judge_last(alloc, known, around, member)
}

fn judge_first(alloc: Global, known: &Declarations, member: &MemberItem) -> Result<(), CheckErr>
    ensures { Gives result (first_of (first_rules known.now member.now)) }
{
    match member {
        MemberItem::Type(t) => judge_type(alloc, known.types(), true, t),
        MemberItem::Enum(e) => judge_enum(alloc, known.types(), e),
        MemberItem::Set(s) => judge_set(alloc, known.types(), s),
        MemberItem::Ref(r) => judge_ref(alloc, known, r),
        MemberItem::Composite(_) => Ok(()),
    }
}

fn judge_ref(alloc: Global, known: &Declarations, r: &RefEl) -> Result<(), CheckErr>
    ensures { Gives result (first_of (ref_rules known.now r.now)) }
{
    let name = r.type_name.as_slice();
    if known.types().named(name).is_none() {
        return refuse(alloc, CCode::UnknownType);
    }
    if names_fraction(known.types(), name) {
        return refuse(alloc, CCode::Float);
    }
    Ok(())
}

fn judge_place(
    alloc: Global,
    known: &Declarations,
    names: &NameTable,
    all: Fact,
    member: &MemberItem,
) -> Result<(), CheckErr>
    ensures judged { Gives result (first_of (member_rules known.now (record { names = names.now; all = all }) member.now)) }
    ensures new { OnOk result (is_among names.now (member_name member.now) ≡ false) }
{
    if begins_early(all.width, offset_of(member), known.fact_of(member)) {
        return refuse(alloc, CCode::Offset);
    }
    if names.contains(member_name(member)) {
        return refuse(alloc, CCode::DuplicateName);
    }
    if member_since(member) > 0 {
        return refuse(alloc, CCode::Since);
    }
    Ok(())
}

/// Applies the rules for a member that are tried after those for every member.
fn judge_last(
    alloc: Global,
    known: &Declarations,
    around: u8,
    member: &MemberItem,
) -> Result<(), CheckErr>
    ensures { Gives result (first_of (last_rules (record { types = known.now; around = around }) member.now)) }
{
    match member {
        MemberItem::Type(t) => judge_type_constant(alloc, t),
        MemberItem::Enum(e) => {
            if enum_fact(known.types(), None, e).is_fixed {
                return refuse(alloc, CCode::Presence);
            }
            Ok(())
        }
        MemberItem::Ref(r) => judge_named_type(alloc, known, around, r),
        MemberItem::Set(_) | MemberItem::Composite(_) => Ok(()),
    }
}

fn judge_named_type(
    alloc: Global,
    known: &Declarations,
    around: u8,
    r: &RefEl,
) -> Result<(), CheckErr>
    ensures { Gives result (first_of (last_rules (record { types = known.now; around = around }) (part.Ref r.now))) }
{
    if names_too_high(known, around, r) {
        return refuse(alloc, CCode::Depth);
    }
    if names_constant_enum(known, r) {
        return refuse(alloc, CCode::Presence);
    }
    Ok(())
}

fn names_too_high(known: &Declarations, around: u8, r: &RefEl) -> bool
    ensures { result ≡ names_too_high (record { types = known.now; around = around }) r.now }
{
    is_too_high(around, known.fact_named(r.type_name.as_slice()).height)
}

fn is_too_high(around: u8, height: u64) -> bool
    ensures { result ≡ is_too_high around height }
{
    height > 0 && (height > 4 || around as u64 + height > 4)
}

fn names_constant_enum(known: &Declarations, r: &RefEl) -> bool
    ensures { result ≡ names_constant_enum known.now r.now }
{
    let name = r.type_name.as_slice();
    match known.types().named(name) {
        Some(TypesItem::Enum(_)) => known.fact_named(name).is_fixed,
        _ => false,
    }
}

/// Applies the rules for a composite that are tried after its members.
fn judge_whole(alloc: Global, around: u8, all: Fact) -> Result<(), CheckErr>
    ensures { Gives result (first_of (composite_rules around all)) }
{
    if around == 4 {
        return refuse(alloc, CCode::Depth);
    }
    if all.width > 1_048_576 || all.leaves > 256 {
        return refuse(alloc, CCode::Width);
    }
    Ok(())
}

/// Whether a part begins before the end of the previous one.
pub fn begins_early(reached: u64, offset: Option<u32>, fact: Fact) -> bool
    ensures { result ≡ begins_early reached offset fact }
{
    match offset {
        Some(begin) => !fact.is_fixed && (begin as u64) < reached,
        None => false,
    }
}

fn deeper(around: u8) -> u8
    ensures { result ≡ min (around + 1) 5 }
{
    around.saturating_add(1).min(5)
}
