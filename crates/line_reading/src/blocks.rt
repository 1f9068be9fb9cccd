ghost use Rattle.std.specs.Prelude.{◌≡◌, option_map};
ghost use Rattle.json_data.specs.Trees.{data_of, items_of};
ghost use Rattle.line_values.specs.Refusals.{Gives};
ghost use Rattle.line_values.specs.Objects.{each, at_item as at_place};
ghost use Rattle.line_reading.specs.Lines.{entry_of, entry_in, entries_in, group_in, block_read, group_read};
ghost use Rattle.line_values.specs.Code.{object_members};
ghost use Rattle.line_reading.specs.Code.{group_list_read, block_opened};

use crate::fields::read_fields;
use crate::parts::read_parts;
use json_data::{Json, Pair};
use line_values::{
    JCode, LineFault, Names, at_item, find_in, inside, name_of, part, refuse, refuse_unknown,
};
use lists::List;
use sbe_types::{Block, BlockList, Group, GroupVal, GroupValList, Level};
use std::alloc::Global;

/// Reads the contents of the object of a message's root or of an entry: fields, then groups, then data.
#[cycle(block)]
#[tactic(auto, unfolding(crate::specs::Code::block_opened))]
fn read_opened(
    alloc: Global,
    level: &Level,
    object: Option<&[Pair<'_>]>,
) -> Result<Block, LineFault>
    ensures { Gives result (block_opened level.now (object_members object.entry)) }
{
    let fields = level.fields.as_slice();
    let groups = level.groups.as_slice();
    let parts = level.parts.as_slice();
    let found = part(alloc, "fields", &Names::Fields(fields), object)?;
    let fields = read_fields(alloc, fields, found)?;
    let found = part(alloc, "groups", &Names::Groups(groups), object)?;
    let groups = read_groups(alloc, groups, found)?;
    let found = part(alloc, "data", &Names::Parts(parts), object)?;
    let parts = read_parts(alloc, parts, found)?;
    Ok(Block {
        fields,
        groups,
        parts,
    })
}

/// Reads the block of a level.
#[cycle(block)]
pub fn read_block(
    alloc: Global,
    level: &Level,
    object: Option<&[Pair<'_>]>,
) -> Result<Block, LineFault>
    ensures { Gives result (block_read level.now (object_members object.entry)) }
{
    read_opened(alloc, level, object)
}

/// Reads the entries of groups, in the schema's order.
#[cycle(block)]
#[tactic(auto, unfolding(crate::specs::Code::group_list_read), using(crate::proofs::ListSteps::groups_more))]
fn read_groups(
    alloc: Global,
    groups: &[Group],
    object: Option<&[Pair<'_>]>,
) -> Result<GroupValList, LineFault>
    ensures { Gives result (group_list_read groups.now (object_members object.entry)) }
{
    let mut out = List::new(alloc);
    for group in groups {
        out.push(read_group(alloc, group, object)?)?;
    }
    Ok(out)
}

/// Reads the entries of a group.
#[cycle(block)]
fn read_group(
    alloc: Global,
    group: &Group,
    object: Option<&[Pair<'_>]>,
) -> Result<GroupVal, LineFault>
    ensures { Gives result (group_read group.now (object_members object.entry)) }
{
    let name = name_of(group);
    inside(
        alloc,
        name,
        read_entries(alloc, &group.level, find_in(object, name)),
    )
}

/// Reads the entries of a group; a missing one has none.
#[cycle(block)]
fn read_entries(
    alloc: Global,
    level: &Level,
    found: Option<&Json<'_>>,
) -> Result<GroupVal, LineFault>
    ensures { Gives result (group_in (block_read level.now) (option_map (λ v. data_of v.now) found.entry)) }
{
    match found {
        None => Ok(GroupVal::Entries(List::new(alloc))),
        Some(found) => match found.as_array() {
            None => refuse(alloc, JCode::Kind, b""),
            Some(items) => {
                let entries = read_items(alloc, level, items)?;
                Ok(GroupVal::Entries(entries))
            }
        },
    }
}

/// Reads the entries of an array.
#[cycle(block)]
#[tactic(auto, unfolding(line_values::specs::Objects::each), using(crate::proofs::ItemSteps::entries_more))]
fn read_items(alloc: Global, level: &Level, items: &[Json<'_>]) -> Result<BlockList, LineFault>
    ensures { Gives result (each (entry_in (block_read level.now)) 0 (items_of items.now)) }
{
    let mut out = List::new(alloc);
    for (i, item) in items.iter().enumerate() {
        out.push(read_item(alloc, level, i, item)?)?;
    }
    Ok(out)
}

/// Reads entry `i` of an array.
#[cycle(block)]
fn read_item(alloc: Global, level: &Level, i: usize, item: &Json<'_>) -> Result<Block, LineFault>
    ensures { Gives result (at_place i (entry_in (block_read level.now) (data_of item.now))) }
{
    at_item(alloc, i, read_entry(alloc, level, item))
}

/// Reads an entry, which must be an object.
#[cycle(block)]
fn read_entry(alloc: Global, level: &Level, item: &Json<'_>) -> Result<Block, LineFault>
    ensures { Gives result (entry_in (block_read level.now) (data_of item.now)) }
{
    match item.as_object() {
        None => refuse(alloc, JCode::Kind, b""),
        Some(object) => inside(alloc, b".", read_known(alloc, level, Some(object))),
    }
}

/// Reads the contents of an entry's object.
#[cycle(block)]
fn read_known(alloc: Global, level: &Level, object: Option<&[Pair<'_>]>) -> Result<Block, LineFault>
    ensures { Gives result (entry_of (block_read level.now) (object_members object.entry)) }
{
    refuse_unknown(alloc, &Names::Entry, object)?;
    read_block(alloc, level, object)
}
