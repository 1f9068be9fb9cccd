//! Messages of an earlier version, with the parts that a later version has: those that the earlier one lacks are
//! absent.

ghost use Rattle.std.specs.Prelude.{◌≡◌, map, IfOk};
ghost use Rattle.std.specs.Option.{option_map};
ghost use Rattle.sbe_types.specs.declared.message.Value.TheVariants.{Absent as NoValue};
ghost use Rattle.sbe_types.specs.declared.message.DataVal.TheVariants.{Absent as NoData};
ghost use Rattle.sbe_types.specs.declared.message.GroupVal.TheVariants.{Absent as NoGroup};
ghost use Rattle.regrade.specs.Each.{TakesNext, lifted_fields, lifted_groups_each, lifted_parts, some_or};
ghost use Rattle.version_laws.specs.Projected.{lifted_block, lifted_group};

use lists::{List, NoMem};
use sbe_types::{Block, DataField, DataVal, Field, Group, GroupVal, Level, Value};
use std::alloc::Global;

/// The next of the earlier version's values, for a part that this version has.
fn next_value<'a, T>(values: &'a List<T>, next: &mut usize, known: bool) -> Option<&'a T>
    ensures { TakesNext known values.now next.old next.new (option_map (λ v. v.now) result) }
{
    if !known {
        return None;
    }
    if *next >= values.len() {
        return None;
    }
    let value = values.at(*next);
    *next += 1;
    Some(value)
}

/// A field's value, or absent if there is none.
fn lift_field(alloc: Global, value: Option<&Value>) -> Result<Value, NoMem>
    ensures { IfOk result (λ it. it ≡ some_or NoValue (option_map (λ v. v.now) value.entry)) }
{
    match value {
        Some(value) => value.copy(alloc),
        None => Ok(Value::Absent),
    }
}

/// A data part, or an absent one if there are no bytes.
fn lift_part(alloc: Global, value: Option<&DataVal>) -> Result<DataVal, NoMem>
    ensures { IfOk result (λ it. it ≡ some_or NoData (option_map (λ v. v.now) value.entry)) }
{
    match value {
        Some(value) => value.copy(alloc),
        None => Ok(DataVal::Absent),
    }
}

/// The values of the later version's fields.
fn lift_fields(
    alloc: Global,
    version: u32,
    fields: &List<Field>,
    values: &List<Value>,
) -> Result<List<Value>, NoMem>
    ensures { IfOk result (λ it. it ≡ lifted_fields version fields.now values.now) }
{
    let mut lifted = List::new(alloc);
    let mut next = 0;
    for i in 0..fields.len() {
        let known = fields.at(i).since <= version;
        let value = lift_field(alloc, next_value(values, &mut next, known))?;
        lifted.push(value)?;
    }
    Ok(lifted)
}

/// Its data.
fn lift_parts(
    alloc: Global,
    version: u32,
    parts: &List<DataField>,
    values: &List<DataVal>,
) -> Result<List<DataVal>, NoMem>
    ensures { IfOk result (λ it. it ≡ lifted_parts version parts.now values.now) }
{
    let mut lifted = List::new(alloc);
    let mut next = 0;
    for i in 0..parts.len() {
        let known = parts.at(i).since <= version;
        let value = lift_part(alloc, next_value(values, &mut next, known))?;
        lifted.push(value)?;
    }
    Ok(lifted)
}

/// Its groups.
#[cycle(lift)]
fn lift_groups(
    alloc: Global,
    version: u32,
    groups: &List<Group>,
    values: &List<GroupVal>,
) -> Result<List<GroupVal>, NoMem>
    ensures { IfOk result (λ it. it ≡ lifted_groups_each version groups.now values.now) }
{
    let mut lifted = List::new(alloc);
    let mut next = 0;
    for i in 0..groups.len() {
        let group = groups.at(i);
        let known = group.level.since <= version;
        let value = lift_group(alloc, version, group, next_value(values, &mut next, known))?;
        lifted.push(value)?;
    }
    Ok(lifted)
}

/// A group, or an absent one if there is no value.
#[cycle(lift)]
fn lift_group(
    alloc: Global,
    version: u32,
    group: &Group,
    value: Option<&GroupVal>,
) -> Result<GroupVal, NoMem>
    ensures { IfOk result (λ it. it ≡ some_or NoGroup (option_map (lifted_group version group.now) (option_map (λ v. v.now) value.entry))) }
{
    match value {
        Some(value) => lift_value(alloc, version, group, value),
        None => Ok(GroupVal::Absent),
    }
}

/// A group that both versions have.
#[cycle(lift)]
fn lift_value(
    alloc: Global,
    version: u32,
    group: &Group,
    value: &GroupVal,
) -> Result<GroupVal, NoMem>
    ensures { IfOk result (λ it. it ≡ lifted_group version group.now value.now) }
{
    match value {
        GroupVal::Absent => Ok(GroupVal::Absent),
        GroupVal::Entries(entries) => Ok(GroupVal::Entries(lift_entries(
            alloc,
            version,
            &group.level,
            entries,
        )?)),
    }
}

/// The entries of a group that both versions have.
#[cycle(lift)]
fn lift_entries(
    alloc: Global,
    version: u32,
    level: &Level,
    entries: &List<Block>,
) -> Result<List<Block>, NoMem>
    ensures { IfOk result (λ it. it ≡ map (lifted_block version level.now) entries.now) }
{
    let mut lifted = List::new(alloc);
    for entry in entries.as_slice() {
        lifted.push(lift_block(alloc, version, level, entry)?)?;
    }
    Ok(lifted)
}

/// The block with a value for each part of the later version's level.
#[cycle(lift)]
pub(crate) fn lift_block(
    alloc: Global,
    version: u32,
    level: &Level,
    block: &Block,
) -> Result<Block, NoMem>
    ensures { IfOk result (λ it. it ≡ lifted_block version level.now block.now) }
{
    let groups = lift_groups(alloc, version, &level.groups, &block.groups)?;
    let parts = lift_parts(alloc, version, &level.parts, &block.parts)?;
    let fields = lift_fields(alloc, version, &level.fields, &block.fields)?;
    Ok(Block {
        fields,
        groups,
        parts,
    })
}
