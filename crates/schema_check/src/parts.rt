ghost use Rattle.std.specs.Prelude.{◌≡◌, false, codes, unwrap_or, OnOk};
ghost use Rattle.sbe_types.specs.declared.tree.PartItem as part;
ghost use Rattle.schema_rules.specs.Judging.{Gives, first_of, at_element};
ghost use Rattle.schema_rules.specs.Names.{is_among};
ghost use Rattle.schema_rules.specs.Kinds.{kind_named, members_of, members_named};
ghost use Rattle.schema_rules.specs.PartRules.{rank, greatest_since, begins_wrong, part_rules, since_in, entries_level, no_part, with_field, with_group, with_data, facts_with, part_name, data_rules, data_check, dimension_rules, is_short, is_bad_block, group_rules, part_check, parts_check};
ghost use Rattle.schema_check.specs.LevelCheck.{level_of, group_check};

use sbe_types::{DataEl, GroupEl, MemberItem, PartItem};
use schema_rules::{CCode, CheckErr, Fact, LevelFacts, LevelScope, PartClass, PartHead};
use std::alloc::Global;
use type_check::{
    NameTable, at_element, field_fact, judge_field, judge_head, names_fraction, refuse,
};
use type_facts::{Declarations, Types, past};
use type_kinds::{holds, is_data, is_dimension, members_named};

/// The facts of a level without parts.
const NO_PARTS: LevelFacts = LevelFacts {
    last: PartClass::Field,
    reached: 0,
    floor: 0,
    fields_since: 0,
    groups_since: 0,
    data_since: 0,
    alive: false,
};

/// Checks the parts of a level in their order, and returns what is known of them all.
#[cycle(parts)]
pub fn judge_parts(
    alloc: Global,
    known: &Declarations,
    level: LevelScope,
    parts: &[PartItem],
) -> Result<LevelFacts, CheckErr>
    ensures { Gives result (level_of (parts_check (record { types = known.now; level = level }) no_part parts.now)) }
{
    let mut names = NameTable::new(alloc);
    let mut all = NO_PARTS;
    for part in parts {
        judge_named(alloc, known, level, &names, all, part)?;
        names.push(alloc, part_name(part))?;
        all = facts_with(known, level, all, part);
    }
    Ok(all)
}

#[cycle(parts)]
fn judge_named(
    alloc: Global,
    known: &Declarations,
    level: LevelScope,
    names: &NameTable,
    all: LevelFacts,
    part: &PartItem,
) -> Result<(), CheckErr>
    ensures judged { Gives result (at_element (codes ".") (part_name part.now) (part_check (record { types = known.now; level = level }) (record { names = names.now; all = all }) part.now)) }
    ensures new { OnOk result (is_among names.now (part_name part.now) ≡ false) }
{
    match judge_part(alloc, known, level, names, all, part) {
        Ok(()) => Ok(()),
        Err(e) => Err(at_element(alloc, ".", part_name(part), e)),
    }
}

#[cycle(parts)]
fn judge_part(
    alloc: Global,
    known: &Declarations,
    level: LevelScope,
    names: &NameTable,
    all: LevelFacts,
    part: &PartItem,
) -> Result<(), CheckErr>
    ensures judged { Gives result (part_check (record { types = known.now; level = level }) (record { names = names.now; all = all }) part.now) }
    ensures new { OnOk result (is_among names.now (part_name part.now) ≡ false) }
{
    match part {
        PartItem::Field(f) => judge_field(alloc, known, level, names, all, f),
        PartItem::Group(g) => judge_group(alloc, known, level, names, all, g),
        PartItem::Data(d) => judge_data(alloc, known, level, names, all, d),
    }
}

/// Checks a group and its parts.
#[cycle(parts)]
fn judge_group(
    alloc: Global,
    known: &Declarations,
    level: LevelScope,
    names: &NameTable,
    all: LevelFacts,
    group: &GroupEl,
) -> Result<(), CheckErr>
    ensures judged { Gives result (group_check (record { types = known.now; level = level }) (record { names = names.now; all = all }) group.now) }
    ensures new { OnOk result (is_among names.now group.now.name ≡ false) }
{
    judge_dimension(alloc, known, group.dimension_type.as_slice())?;
    let head = PartHead {
        class: PartClass::Group,
        since: group.since_version,
        is_fixed: false,
    };
    judge_head(alloc, level, names, all, group.name.as_slice(), head)?;
    let inner = entries_level(level, group.since_version);
    let parts = judge_parts(alloc, known, inner, group.children.as_slice())?;
    judge_entries(alloc, known.types(), level.around, group, parts)
}

fn judge_dimension(alloc: Global, known: &Declarations, name: &[u8]) -> Result<(), CheckErr>
    ensures { Gives result (first_of (dimension_rules known.now name.now)) }
{
    let types = known.types();
    if types.named(name).is_none() {
        return refuse(alloc, CCode::UnknownType);
    }
    if names_fraction(types, name) {
        return refuse(alloc, CCode::Float);
    }
    if !is_dimension(types, members_named(types, name)) {
        return refuse(alloc, CCode::BadDimension);
    }
    Ok(())
}

/// Applies the rules for a group that are tried after its parts.
fn judge_entries(
    alloc: Global,
    types: &Types,
    around: u8,
    group: &GroupEl,
    all: LevelFacts,
) -> Result<(), CheckErr>
    ensures { Gives result (first_of (group_rules around (members_named types.now group.now.dimension_type) group.now.block_length all)) }
{
    if is_short(group.block_length, all.reached) {
        return refuse(alloc, CCode::BlockShort);
    }
    if all.floor == 0 && !all.alive {
        return refuse(alloc, CCode::EmptyGroup);
    }
    if around == 6 {
        return refuse(alloc, CCode::Depth);
    }
    let dimension = members_named(types, group.dimension_type.as_slice());
    if is_bad_block(types, dimension, block_of(group.block_length, all.reached)) {
        return refuse(alloc, CCode::Width);
    }
    Ok(())
}

/// Checks a data part of a level.
fn judge_data(
    alloc: Global,
    known: &Declarations,
    level: LevelScope,
    names: &NameTable,
    all: LevelFacts,
    data_el: &DataEl,
) -> Result<(), CheckErr>
    ensures judged { Gives result (data_check (record { types = known.now; level = level }) (record { names = names.now; all = all }) data_el.now) }
    ensures new { OnOk result (is_among names.now data_el.now.name ≡ false) }
{
    judge_data_type(alloc, known, data_el)?;
    let head = PartHead {
        class: PartClass::Data,
        since: data_el.since_version,
        is_fixed: false,
    };
    judge_head(alloc, level, names, all, data_el.name.as_slice(), head)
}

fn judge_data_type(alloc: Global, known: &Declarations, data_el: &DataEl) -> Result<(), CheckErr>
    ensures { Gives result (first_of (data_rules known.now data_el.now)) }
{
    let types = known.types();
    let name = data_el.type_name.as_slice();
    if types.named(name).is_none() {
        return refuse(alloc, CCode::UnknownType);
    }
    if names_fraction(types, name) {
        return refuse(alloc, CCode::Float);
    }
    if !is_data(types, members_named(types, name)) {
        return refuse(alloc, CCode::BadData);
    }
    Ok(())
}

/// The stated block length, else the end of the fields.
pub fn block_of(stated: Option<u32>, reached: u64) -> u64
    ensures { result ≡ unwrap_or stated reached }
{
    match stated {
        Some(length) => length as u64,
        None => reached,
    }
}

/// Whether the stated block length is less than the end of the fields.
pub fn is_short(stated: Option<u32>, reached: u64) -> bool
    ensures { result ≡ is_short stated reached }
{
    match stated {
        Some(length) => (length as u64) < reached,
        None => false,
    }
}

/// Whether a block is too long, or the member `blockLength` can't hold its length.
pub fn is_bad_block(types: &Types, members: &[MemberItem], block: u64) -> bool
    ensures { result ≡ is_bad_block (members_of types.now (kind_named types.now) members.now) block }
{
    block > 1_048_576 || !holds(types, members, "blockLength".as_bytes(), block as u32)
}

fn part_name(part: &PartItem) -> &[u8]
    ensures { result.now ≡ part_name part.now }
{
    match part {
        PartItem::Field(f) => f.name.as_slice(),
        PartItem::Group(g) => g.name.as_slice(),
        PartItem::Data(d) => d.name.as_slice(),
    }
}

/// What is known of the parts of a level when one more is added.
fn facts_with(
    known: &Declarations,
    level: LevelScope,
    all: LevelFacts,
    part: &PartItem,
) -> LevelFacts
    ensures { result ≡ facts_with (record { types = known.now; level = level }) all part.now }
{
    match part {
        PartItem::Field(f) => with_field(
            level,
            all,
            field_fact(known, f),
            f.offset,
            f.since_version,
        ),
        PartItem::Group(g) => with_group(level, all, g.since_version),
        PartItem::Data(d) => with_data(level, all, d.since_version),
    }
}

fn with_field(
    level: LevelScope,
    all: LevelFacts,
    fact: Fact,
    offset: Option<u32>,
    own: u32,
) -> LevelFacts
    ensures { result ≡ with_field level all fact offset own }
{
    let reached = past(all.reached, offset, fact);
    LevelFacts {
        last: PartClass::Field,
        reached,
        floor: if !fact.is_fixed && own <= level.since {
            reached
        } else {
            all.floor
        },
        fields_since: if fact.is_fixed {
            all.fields_since
        } else {
            all.fields_since.max(level.since.max(own))
        },
        groups_since: all.groups_since,
        data_since: all.data_since,
        alive: all.alive,
    }
}

fn with_group(level: LevelScope, all: LevelFacts, own: u32) -> LevelFacts
    ensures { result ≡ with_group level all own }
{
    LevelFacts {
        last: PartClass::Group,
        reached: all.reached,
        floor: all.floor,
        fields_since: all.fields_since,
        groups_since: all.groups_since.max(level.since.max(own)),
        data_since: all.data_since,
        alive: all.alive || own <= level.since,
    }
}

fn with_data(level: LevelScope, all: LevelFacts, own: u32) -> LevelFacts
    ensures { result ≡ with_data level all own }
{
    LevelFacts {
        last: PartClass::Data,
        reached: all.reached,
        floor: all.floor,
        fields_since: all.fields_since,
        groups_since: all.groups_since,
        data_since: all.data_since.max(level.since.max(own)),
        alive: all.alive || own <= level.since,
    }
}

fn entries_level(level: LevelScope, own: u32) -> LevelScope
    ensures { result ≡ entries_level level own }
{
    LevelScope {
        version: level.version,
        around: level.around.saturating_add(1).min(7),
        since: level.since.max(own),
    }
}
