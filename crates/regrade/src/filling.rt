//! Messages whose absent parts are filled with empty values.

ghost use Rattle.std.specs.Prelude.{◌≤◌, ◌<◌, ◌+◌, ◌*◌, length};
ghost use Rattle.sbe_types.specs.declared.limits.TheConstants.{PART_LIMIT};
ghost use Rattle.sbe_types.specs.declared.schema.Group.{out-Group};
ghost use Rattle.sbe_types.specs.declared.schema.Level.{out-Level};
ghost use Rattle.schema_facts.specs.CheckedLevels.{groups_deep};
ghost use Rattle.schema_facts.specs.Counted.{total};
ghost use Rattle.schema_rules.specs.PartRules.{most_groups};
ghost use Rattle.regrade_laws.specs.Fill.{field_or_fill, part_or_fill};
ghost use Rattle.regrade_laws.specs.Filled.{filled_block, filled_entries, filled_group, filled_list};
ghost use Rattle.regrade_laws.specs.Counts.{count_pairs, filled_count, filled_group_count, fills_field, fills_part, one_if, sum_pairs};
ghost use Rattle.regrade_laws.specs.Sizes.{HasFewThroughout};
ghost use Rattle.regrade.specs.Fillings.{HasRoom, IsFilled, IsLow};

use crate::filler::{Filler, Unfilled};
use crate::fills::fill_of;
use crate::values::{admits_no_entries, admits_none, is_absent};
use lists::{List, NoMem};
use sbe_types::{
    Block, BlockList, DataField, DataFieldList, DataVal, DataValList, Field, FieldList, Group,
    GroupVal, GroupValList, Kind, Level, Step, Value, ValueList,
};

/// The value of a field, or its empty value if it is absent.
fn fill_field(filler: &mut Filler, field: &Field, value: Value) -> Result<Value, Unfilled>
    requires room { HasRoom (one_if (fills_field field.now value)) filler.old }
    ensures filled { IsFilled (field_or_fill field.now value) (one_if (fills_field field.now value)) filler.old filler.new result }
    ensures low { IsLow 0 filler.new result }
{
    if !is_absent(&value) {
        return Ok(value);
    }
    match &field.kind {
        Kind::Const(_) => Ok(Value::Const),
        Kind::Leaf(_) | Kind::Enum(_, _) | Kind::Set(_, _) | Kind::Comp(_) => {
            match fill_of(filler.alloc, &field.kind) {
                Ok(Some(fill)) => {
                    filler.filled += 1;
                    Ok(fill)
                }
                Ok(None) => Err(filler.lacks()),
                Err(NoMem) => Err(Unfilled::Memory),
            }
        }
    }
}

/// The bytes of a data part, or an empty part if it is absent and may be empty.
fn fill_part(filler: &mut Filler, part: &DataField, value: DataVal) -> Result<DataVal, Unfilled>
    requires room { HasRoom (one_if (fills_part part.now value)) filler.old }
    ensures filled { IsFilled (part_or_fill part.now value) (one_if (fills_part part.now value)) filler.old filler.new result }
    ensures low { IsLow 0 filler.new result }
{
    match value {
        DataVal::Bytes(bytes) => Ok(DataVal::Bytes(bytes)),
        DataVal::Absent => {
            if !admits_none(&part.length) {
                return Err(filler.lacks());
            }
            filler.filled += 1;
            Ok(DataVal::Bytes(List::new(filler.alloc)))
        }
    }
}

/// The fields of a level.
fn fill_fields(
    filler: &mut Filler,
    fields: &FieldList,
    values: ValueList,
) -> Result<ValueList, Unfilled>
    requires few { length fields.now ≤ PART_LIMIT }
    requires room { HasRoom (count_pairs fills_field fields.now values) filler.old }
    ensures filled { IsFilled (filled_list field_or_fill 0 fields.now values) (count_pairs fills_field fields.now values) filler.old filler.new result }
    ensures low { IsLow 1 filler.new result }
{
    let mut written = List::new(filler.alloc);
    let mut i = 0;
    for value in values.into_vec() {
        if i >= fields.len() {
            return Ok(written);
        }
        match fill_field(filler, fields.at(i), value) {
            Ok(value) => match written.push(value) {
                Ok(()) => {}
                Err(NoMem) => return Err(Unfilled::Memory),
            },
            Err(why) => return Err(filler.inside(Step::Part(i as u32), why)),
        }
        i += 1;
    }
    Ok(written)
}

/// The data of a level. The first one is part `first`.
fn fill_parts(
    filler: &mut Filler,
    first: usize,
    parts: &DataFieldList,
    values: DataValList,
) -> Result<DataValList, Unfilled>
    requires few { first + length parts.now ≤ PART_LIMIT }
    requires room { HasRoom (count_pairs fills_part parts.now values) filler.old }
    ensures filled { IsFilled (filled_list part_or_fill first parts.now values) (count_pairs fills_part parts.now values) filler.old filler.new result }
    ensures low { IsLow 1 filler.new result }
{
    let mut written = List::new(filler.alloc);
    let mut i = 0;
    for value in values.into_vec() {
        if i >= parts.len() {
            return Ok(written);
        }
        match fill_part(filler, parts.at(i), value) {
            Ok(value) => match written.push(value) {
                Ok(()) => {}
                Err(NoMem) => return Err(Unfilled::Memory),
            },
            Err(why) => return Err(filler.inside(Step::Part((first + i) as u32), why)),
        }
        i += 1;
    }
    Ok(written)
}

/// The groups of a level.
#[cycle(fill_parts)]
fn fill_groups(
    filler: &mut Filler,
    level: &Level,
    values: GroupValList,
) -> Result<GroupValList, Unfilled>
    requires few { HasFewThroughout level.now }
    requires shallow { groups_deep level.now ≤ most_groups }
    requires room { HasRoom (sum_pairs filled_group_count (out-Level level.now).groups values) filler.old }
    ensures filled { IsFilled (filled_list filled_group (length (out-Level level.now).fields) (out-Level level.now).groups values)
        (sum_pairs filled_group_count (out-Level level.now).groups values) filler.old filler.new result }
    ensures low { IsLow (2 * groups_deep level.now + 1) filler.new result }
{
    let first = level.fields.len();
    let mut written = List::new(filler.alloc);
    let mut i = 0;
    for value in values.into_vec() {
        if i >= level.groups.len() {
            return Ok(written);
        }
        match fill_group(filler, level.groups.at(i), value) {
            Ok(value) => match written.push(value) {
                Ok(()) => {}
                Err(NoMem) => return Err(Unfilled::Memory),
            },
            Err(why) => return Err(filler.inside(Step::Part((first + i) as u32), why)),
        }
        i += 1;
    }
    Ok(written)
}

/// The entries of a group, each filled; or no entries if the group is absent and may be empty.
#[cycle(fill_parts)]
fn fill_group(filler: &mut Filler, group: &Group, value: GroupVal) -> Result<GroupVal, Unfilled>
    requires few { HasFewThroughout (out-Group group.now).level }
    requires shallow { groups_deep (out-Group group.now).level < most_groups }
    requires room { HasRoom (filled_group_count group.now value) filler.old }
    ensures filled { IsFilled (filled_group group.now value) (filled_group_count group.now value) filler.old filler.new result }
    ensures low { IsLow (2 * groups_deep (out-Group group.now).level + 2) filler.new result }
{
    match value {
        GroupVal::Entries(entries) => {
            match fill_entries(filler, &group.level, entries) {
                Ok(entries) => Ok(GroupVal::Entries(entries)),
                Err(why) => Err(why),
            }
        }
        GroupVal::Absent => {
            if !admits_no_entries(&group.dim) {
                return Err(filler.lacks());
            }
            filler.filled += 1;
            Ok(GroupVal::Entries(List::new(filler.alloc)))
        }
    }
}

/// The entries of a group. If there are more than a count can state, the error is out of memory.
#[cycle(fill_parts)]
fn fill_entries(
    filler: &mut Filler,
    level: &Level,
    entries: BlockList,
) -> Result<BlockList, Unfilled>
    requires few { HasFewThroughout level.now }
    requires shallow { groups_deep level.now < most_groups }
    requires room { HasRoom (total (filled_count level.now) entries) filler.old }
    ensures filled { IsFilled (filled_entries (λ entry. filled_block level.now entry) 0 entries) (total (filled_count level.now) entries) filler.old filler.new result }
    ensures low { IsLow (2 * groups_deep level.now + 2) filler.new result }
{
    if entries.len() > u32::MAX as usize {
        return Err(Unfilled::Memory);
    }
    let mut written = List::new(filler.alloc);
    let mut i: usize = 0;
    for entry in entries.into_vec() {
        match fill_block(filler, level, entry) {
            Ok(entry) => match written.push(entry) {
                Ok(()) => {}
                Err(NoMem) => return Err(Unfilled::Memory),
            },
            Err(why) => return Err(filler.inside(Step::Entry(i as u32), why)),
        }
        i += 1;
    }
    Ok(written)
}

/// The block with a value for each part of the level; absent ones are filled.
#[cycle(fill_parts)]
pub(crate) fn fill_block(
    filler: &mut Filler,
    level: &Level,
    block: Block,
) -> Result<Block, Unfilled>
    requires few { HasFewThroughout level.now }
    requires shallow { groups_deep level.now ≤ most_groups }
    requires room { HasRoom (filled_count level.now block) filler.old }
    ensures filled { IsFilled (filled_block level.now block) (filled_count level.now block) filler.old filler.new result }
    ensures low { IsLow (2 * groups_deep level.now + 1) filler.new result }
{
    let Block {
        fields,
        groups,
        parts,
    } = block;
    let first = level.fields.len() + level.groups.len();
    let fields = match fill_fields(filler, &level.fields, fields) {
        Ok(fields) => fields,
        Err(why) => return Err(why),
    };
    let groups = match fill_groups(filler, level, groups) {
        Ok(groups) => groups,
        Err(why) => return Err(why),
    };
    let parts = match fill_parts(filler, first, &level.parts, parts) {
        Ok(parts) => parts,
        Err(why) => return Err(why),
    };
    Ok(Block {
        fields,
        groups,
        parts,
    })
}
