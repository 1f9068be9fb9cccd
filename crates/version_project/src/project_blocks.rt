ghost use Rattle.std.specs.Prelude.{◌≡◌, map, IfOk};
ghost use Rattle.version_project.specs.Each.{known_fields, known_groups, known_parts};
ghost use Rattle.version_laws.specs.Projected.{projected_block, projected_group};

use lists::{List, NoMem};
use sbe_types::{Block, DataField, DataVal, Field, Group, GroupVal, Level, Value};
use std::alloc::Global;

fn project_fields(
    alloc: Global,
    version: u32,
    fields: &List<Field>,
    values: &List<Value>,
) -> Result<List<Value>, NoMem>
    ensures { IfOk result (λ it. it ≡ known_fields version fields.now values.now) }
{
    let mut out = List::new(alloc);
    for (i, field) in fields.as_slice().iter().enumerate() {
        if i >= values.len() {
            return Ok(out);
        }
        let value = values.at(i);
        if field.since <= version {
            let copy = value.copy(alloc)?;
            out.push(copy)?;
        }
    }
    Ok(out)
}

fn project_parts(
    alloc: Global,
    version: u32,
    parts: &List<DataField>,
    values: &List<DataVal>,
) -> Result<List<DataVal>, NoMem>
    ensures { IfOk result (λ it. it ≡ known_parts version parts.now values.now) }
{
    let mut out = List::new(alloc);
    for (i, part) in parts.as_slice().iter().enumerate() {
        if i >= values.len() {
            return Ok(out);
        }
        let value = values.at(i);
        if part.since <= version {
            let copy = value.copy(alloc)?;
            out.push(copy)?;
        }
    }
    Ok(out)
}

#[cycle(project)]
fn project_groups(
    alloc: Global,
    version: u32,
    groups: &List<Group>,
    values: &List<GroupVal>,
) -> Result<List<GroupVal>, NoMem>
    ensures { IfOk result (λ it. it ≡ known_groups version groups.now values.now) }
{
    let mut out = List::new(alloc);
    for (i, group) in groups.as_slice().iter().enumerate() {
        if i >= values.len() {
            return Ok(out);
        }
        let value = values.at(i);
        if group.level.since <= version {
            let copy = one_group(alloc, version, group, value)?;
            out.push(copy)?;
        }
    }
    Ok(out)
}

#[cycle(project)]
fn one_group(
    alloc: Global,
    version: u32,
    group: &Group,
    value: &GroupVal,
) -> Result<GroupVal, NoMem>
    ensures { IfOk result (λ it. it ≡ projected_group version group.now value.now) }
{
    match value {
        GroupVal::Absent => Ok(GroupVal::Absent),
        GroupVal::Entries(entries) => Ok(GroupVal::Entries(project_entries(
            alloc,
            version,
            &group.level,
            entries,
        )?)),
    }
}

#[cycle(project)]
fn project_entries(
    alloc: Global,
    version: u32,
    level: &Level,
    entries: &List<Block>,
) -> Result<List<Block>, NoMem>
    ensures { IfOk result (λ it. it ≡ map (projected_block version level.now) entries.now) }
{
    let mut out = List::new(alloc);
    for entry in entries.as_slice() {
        out.push(project_block(alloc, version, level, entry)?)?;
    }
    Ok(out)
}

/// The block as the older schema knows it: the values of the parts that are effective by its version.
#[cycle(project)]
pub(crate) fn project_block(
    alloc: Global,
    version: u32,
    level: &Level,
    block: &Block,
) -> Result<Block, NoMem>
    ensures { IfOk result (λ it. it ≡ projected_block version level.now block.now) }
{
    let groups = project_groups(alloc, version, &level.groups, &block.groups)?;
    let parts = project_parts(alloc, version, &level.parts, &block.parts)?;
    let fields = project_fields(alloc, version, &level.fields, &block.fields)?;
    Ok(Block {
        fields,
        groups,
        parts,
    })
}
