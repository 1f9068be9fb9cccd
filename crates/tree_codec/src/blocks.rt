// Blocks of a message, as trees.
ghost use Rattle.std.specs.Prelude.{◌≡◌, ◌<◌, length, slice_get, Some, IfOk};
ghost use Rattle.std.specs.Option.{option_map};
ghost use Rattle.sbe_types.specs.declared.message.Block.{out-Block};
ghost use Rattle.tree_codec.specs.Trees.{blocks_of, group_of, part_of, AllWhole, IsWholeGroup, IsWholeBlock};

use crate::values::value_of;
use flyweight_view::{BlockView, EntriesView};
use lists::{List, NoMem};
use sbe_types::{Block, BlockList, DataVal, DataValList, GroupVal, GroupValList, Value, ValueList};
use std::alloc::Global;

/// The tree of a message's root or of an entry.
#[cycle(block)]
pub(crate) fn block_tree(alloc: Global, block: &BlockView<'_>) -> Result<Block, NoMem>
    requires { IsWholeBlock block.now }
    ensures { IfOk result (λ b. b ≡ block.now.block) }
{
    let fields = field_values(alloc, block)?;
    let groups = group_trees(alloc, block)?;
    let parts = part_trees(alloc, block)?;
    Ok(Block {
        fields,
        groups,
        parts,
    })
}

// ---- fields

/// The values of a block's fields.
fn field_values(alloc: Global, block: &BlockView<'_>) -> Result<ValueList, NoMem>
    requires { length (out-Block block.now.block).fields ≡ length block.now.fields }
    ensures { IfOk result (λ vs. vs ≡ (out-Block block.now.block).fields) }
{
    let (count, _, _) = block.counts();
    let mut values = List::new(alloc);
    for i in 0..count {
        values.push(field_value(alloc, block, i)?)?;
    }
    Ok(values)
}

/// The value of field `i`. Requires a field in range.
fn field_value(alloc: Global, block: &BlockView<'_>, i: usize) -> Result<Value, NoMem>
    requires { i < length block.now.fields }
    ensures { IfOk result (λ v. slice_get (out-Block block.now.block).fields i ≡ Some v) }
{
    match block.field(i) {
        None => Ok(Value::Absent),
        Some(field) => value_of(alloc, field.order, field.kind, field.bytes),
    }
}

// ---- data parts

/// The data parts of a block.
fn part_trees(alloc: Global, block: &BlockView<'_>) -> Result<DataValList, NoMem>
    ensures { IfOk result (λ vs. vs ≡ (out-Block block.now.block).parts) }
{
    let (_, _, count) = block.counts();
    let mut parts = block.parts();
    let mut trees = List::new(alloc);
    for i in 0..count {
        trees.push(part_tree(alloc, parts.next_part())?)?;
    }
    Ok(trees)
}

/// A data part of these bytes, or an absent one if there are none.
fn part_tree(alloc: Global, bytes: Option<&[u8]>) -> Result<DataVal, NoMem>
    ensures { IfOk result (λ v. v ≡ part_of (option_map (λ b. b.now) bytes.entry)) }
{
    match bytes {
        None => Ok(DataVal::Absent),
        Some(bytes) => Ok(DataVal::Bytes(List::from_slice(alloc, bytes)?)),
    }
}

// ---- groups

/// The groups of a block.
#[cycle(block)]
fn group_trees(alloc: Global, block: &BlockView<'_>) -> Result<GroupValList, NoMem>
    requires { IsWholeBlock block.now }
    ensures { IfOk result (λ vs. vs ≡ (out-Block block.now.block).groups) }
{
    let (_, count, _) = block.counts();
    let mut groups = block.groups();
    let mut trees = List::new(alloc);
    for i in 0..count {
        trees.push(group_tree(alloc, groups.next_group())?)?;
    }
    Ok(trees)
}

/// A group of these entries, or an absent one if there are none.
#[cycle(block)]
fn group_tree(alloc: Global, entries: Option<EntriesView<'_>>) -> Result<GroupVal, NoMem>
    requires { IsWholeGroup entries }
    ensures { IfOk result (λ v. v ≡ group_of entries.entry) }
{
    match entries {
        None => Ok(GroupVal::Absent),
        Some(entries) => Ok(GroupVal::Entries(entry_trees(alloc, entries)?)),
    }
}

/// The entries of a group.
#[cycle(block)]
fn entry_trees(alloc: Global, entries: EntriesView<'_>) -> Result<BlockList, NoMem>
    requires { AllWhole entries }
    ensures { IfOk result (λ bs. bs ≡ blocks_of entries.entry) }
{
    let mut blocks = List::new(alloc);
    for entry in entries {
        blocks.push(block_tree(alloc, &entry)?)?;
    }
    Ok(blocks)
}
