ghost use Rattle.std.specs.Prelude.{◌≡◌, IfOk};
ghost use Rattle.schema_rules.specs.Counters.{leaf_in};
ghost use Rattle.vectors.specs.Drawing.{each, times, below};
ghost use Rattle.vectors.specs.Messages.{block_drawn, count_drawn, field_drawn, group_drawn, leaf_named, part_drawn};
ghost use Rattle.vectors.specs.declared.numbers.TheConstants.{BYTE_VALUES};

use crate::kinds::draw_kind;
use crate::numbers::{BYTE_VALUES, COUNTS, DATA_LENGTHS, amount};
use crate::words::draw;
use lists::{Bytes, List, NoMem};
use rand_pcg::Pcg32;
use sbe_types::{
    Block, DataField, DataVal, Field, Group, GroupVal, Kind, Leaf, Level, Member, Value,
};
use std::alloc::Global;

// ---- fields and data

/// The values of a level's fields.
fn draw_fields(alloc: Global, words: &mut Pcg32, fields: &List<Field>) -> Result<List<Value>, NoMem>
    ensures { IfOk result (λ it. each field_drawn fields.now words.old ≡ (it, words.new)) }
{
    let mut values = List::new(alloc);
    for field in fields.as_slice() {
        values.push(draw_kind(alloc, words, &field.kind)?)?;
    }
    Ok(values)
}

/// `count` bytes of a data part.
fn draw_data(alloc: Global, words: &mut Pcg32, count: u64) -> Result<Bytes, NoMem>
    ensures { IfOk result (λ it. times count (below BYTE_VALUES) words.old ≡ (it, words.new)) }
{
    let mut bytes = List::new(alloc);
    for _ in 0..count {
        bytes.push(draw(words, BYTE_VALUES) as u8)?;
    }
    Ok(bytes)
}

/// A data part.
fn draw_part(alloc: Global, words: &mut Pcg32, part: &DataField) -> Result<DataVal, NoMem>
    ensures { IfOk result (λ it. part_drawn part.now words.old ≡ (it, words.new)) }
{
    let count = amount(&part.length, draw(words, DATA_LENGTHS));
    Ok(DataVal::Bytes(draw_data(alloc, words, count)?))
}

/// The data parts of a level.
fn draw_parts(
    alloc: Global,
    words: &mut Pcg32,
    parts: &List<DataField>,
) -> Result<List<DataVal>, NoMem>
    ensures { IfOk result (λ it. each part_drawn parts.now words.old ≡ (it, words.new)) }
{
    let mut values = List::new(alloc);
    for part in parts.as_slice() {
        values.push(draw_part(alloc, words, part)?)?;
    }
    Ok(values)
}

// ---- groups

/// The leaf of the member with this name.
#[tactic(auto, using(crate::proofs::BlockParts::leaf_next))]
fn leaf_named(members: &List<Member>, name: &[u8]) -> Option<Leaf>
    ensures { result ≡ leaf_named name.now members.now }
{
    for member in members.as_slice() {
        if member.name.as_slice() == name {
            return leaf_in(&member.kind);
        }
    }
    None
}

/// The leaf of a kind.
fn leaf_in(kind: &Kind) -> Option<Leaf>
    ensures { result ≡ leaf_in kind.now }
{
    match kind {
        Kind::Leaf(leaf) => Some(*leaf),
        Kind::Enum(_, _) | Kind::Set(_, _) | Kind::Comp(_) | Kind::Const(_) => None,
    }
}

/// How many entries a group has.
fn draw_count(words: &mut Pcg32, dim: &List<Member>) -> u64
    ensures { count_drawn dim.now words.old ≡ (result, words.new) }
{
    let number = draw(words, COUNTS);
    match leaf_named(dim, b"numInGroup") {
        Some(leaf) => amount(&leaf, number),
        None => 0,
    }
}

/// The groups of a level.
#[cycle(block)]
fn draw_groups(
    alloc: Global,
    words: &mut Pcg32,
    groups: &List<Group>,
) -> Result<List<GroupVal>, NoMem>
    ensures { IfOk result (λ it. each group_drawn groups.now words.old ≡ (it, words.new)) }
{
    let mut values = List::new(alloc);
    for group in groups.as_slice() {
        let count = draw_count(words, &group.dim);
        let entries = draw_entries(alloc, words, &group.level, count)?;
        values.push(GroupVal::Entries(entries))?;
    }
    Ok(values)
}

/// `count` entries of a group.
#[cycle(block)]
fn draw_entries(
    alloc: Global,
    words: &mut Pcg32,
    level: &Level,
    count: u64,
) -> Result<List<Block>, NoMem>
    ensures { IfOk result (λ it. times count (block_drawn level.now) words.old ≡ (it, words.new)) }
{
    let mut entries = List::new(alloc);
    for _ in 0..count {
        entries.push(draw_block(alloc, words, level)?)?;
    }
    Ok(entries)
}

/// The values of a level.
#[cycle(block)]
pub(crate) fn draw_block(alloc: Global, words: &mut Pcg32, level: &Level) -> Result<Block, NoMem>
    ensures { IfOk result (λ it. block_drawn level.now words.old ≡ (it, words.new)) }
{
    let fields = draw_fields(alloc, words, &level.fields)?;
    let groups = draw_groups(alloc, words, &level.groups)?;
    let parts = draw_parts(alloc, words, &level.parts)?;
    Ok(Block {
        fields,
        groups,
        parts,
    })
}
