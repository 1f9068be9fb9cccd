// How many bytes the canonical body of a message has, or its first misfit in wire order.
ghost use Rattle.std.specs.Prelude.{◌≡◌, ◌≤◌, ◌<◌, ◌+◌, ◌*◌, ◌^◌, min, true, codes, List, length, Some, None, IfSome, IfNone};
ghost use Rattle.std.specs.Option.{IsSome};
ghost use Rattle.sbe_types.specs.declared.kind.Member.{Member};
ghost use Rattle.sbe_types.specs.declared.limits.TheConstants.{PART_LIMIT};
ghost use Rattle.sbe_types.specs.declared.message.Block.{out-Block};
ghost use Rattle.sbe_types.specs.declared.message.DataVal.TheVariants.{Bytes as BytesVal};
ghost use Rattle.sbe_types.specs.declared.schema.Group.{out-Group};
ghost use Rattle.sbe_types.specs.declared.schema.Level.{out-Level};
ghost use Rattle.sbe_wire.specs.Misfit.{block_shape, block_taken, each_misfit, each_taken, group_shape, group_taken, part_taken, parts_taken, tail_taken, take_bytes};
ghost use Rattle.sbe_wire.specs.Named.{is_admitted};
ghost use Rattle.schema_rules.specs.PartRules.{most_groups};
ghost use Rattle.schema_facts.specs.CheckedLevels.{groups_deep, HasFewParts};
ghost use Rattle.schema_facts.specs.Levels.{all_nodes, level_at};
ghost use Rattle.layout_tables.specs.Parts.{dim_at};
ghost use Rattle.body_walk.specs.inner.Ready.{IsReadySchema};
ghost use Rattle.tree_codec.specs.Fitting.{AreReady};
ghost use Rattle.tree_codec.specs.Rooms.{dim_room, entry_room, groups_room, place_or_misfit};

use crate::first_misfit::FirstMisfit;
use crate::fit::fit_fields;
use layout_tables::Layout;
use sbe_types::{
    Block, DataField, DataVal, FieldList, Group, GroupVal, Level, List, Step, ValueList,
};
use sbe_wire::NCode;

/// What the walk over a message's tree depends on: its schema's layout, and the most bytes of a body.
#[derive(Clone, Copy)]
pub(crate) struct Walk<'a> {
    pub(crate) layout: &'a Layout,
    pub(crate) limit: usize,
}

/// Adds `more` bytes, within the limit.
fn take_room(limit: usize, before: usize, more: usize, out: &mut FirstMisfit) -> Option<usize>
    requires { before ≤ limit }
    ensures told { place_or_misfit result out.new ≡ take_bytes limit before more }
    ensures within { IfSome result (λ n. n ≤ limit) }
    ensures low { IfNone result (length out.new.path ≤ 0) }
{
    if more > limit - before {
        out.tell(NCode::Full, before as i128 + more as i128);
        return None;
    }
    Some(before + more)
}

/// Counts a block: its room is checked before its fields.
pub(crate) fn take_block(
    limit: usize,
    before: usize,
    size: usize,
    fields: &FieldList,
    values: &ValueList,
    out: &mut FirstMisfit,
) -> Option<usize>
    requires near { before ≤ limit }
    requires ready { AreReady fields.now }
    requires few { length fields.now ≤ PART_LIMIT }
    ensures told { place_or_misfit result out.new ≡ block_taken limit before size fields.now values.now }
    ensures within { IfSome result (λ n. n ≤ limit) }
    ensures low { IfNone result (length out.new.path ≤ 6) }
{
    match take_room(limit, before, size, out) {
        Some(after) => {
            if !fit_fields(fields, values, out) {
                return None;
            }
            Some(after)
        }
        None => None,
    }
}

// ---- data

/// Counts a data part: its length is checked before its room.
fn take_part(
    limit: usize,
    before: usize,
    part: &DataField,
    value: &DataVal,
    out: &mut FirstMisfit,
) -> Option<usize>
    requires near { before ≤ limit }
    ensures told { place_or_misfit result out.new ≡ part_taken limit before part.now value.now }
    ensures within { IfSome result (λ n. n ≤ limit) }
    ensures low { IfNone result (length out.new.path ≤ 0) }
{
    match value {
        DataVal::Absent => Some(before),
        DataVal::Bytes(bytes) => take_data(limit, before, part, bytes.as_slice(), out),
    }
}

/// Counts the bytes of a data part.
fn take_data(
    limit: usize,
    before: usize,
    part: &DataField,
    bytes: &[u8],
    out: &mut FirstMisfit,
) -> Option<usize>
    requires near { before ≤ limit }
    ensures told { place_or_misfit result out.new ≡ part_taken limit before part.now (BytesVal bytes.now) }
    ensures within { IfSome result (λ n. n ≤ limit) }
    ensures low { IfNone result (length out.new.path ≤ 0) }
{
    let count = bytes.len();
    if !part.length.admits(count as i128) {
        out.tell(NCode::Length, count as i128);
        return None;
    }
    take_room(limit, before, part.length.prim.width() + count, out)
}

/// Counts the data parts of a block.
fn take_parts(
    limit: usize,
    before: usize,
    level: &Level,
    block: &Block,
    out: &mut FirstMisfit,
) -> Option<usize>
    requires near { before ≤ limit }
    requires few { HasFewParts level.now }
    requires parts { length (out-Level level.now).parts ≡ length (out-Block block.now).parts }
    ensures told { place_or_misfit result out.new ≡ parts_taken limit (length (out-Level level.now).fields + length (out-Level level.now).groups) before (out-Level level.now).parts (out-Block block.now).parts }
    ensures within { IfSome result (λ n. n ≤ limit) }
    ensures low { IfNone result (length out.new.path ≤ 1) }
{
    let first = level.fields.len() + level.groups.len();
    let mut at = before;
    for i in 0..level.parts.len() {
        match take_part(limit, at, level.parts.at(i), block.parts.at(i), out) {
            Some(after) => at = after,
            None => {
                out.inside(Step::Part((first + i) as u32));
                return None;
            }
        }
    }
    Some(at)
}

// ---- groups

/// Counts an entry, or a message's root after its header: its block, and then its groups and data.
#[cycle(room)]
#[tactic(auto, using(crate::proofs::RoomSteps::behind_block))]
fn take_entry(
    walk: &Walk<'_>,
    n: usize,
    level: &Level,
    entry: &Block,
    before: usize,
    out: &mut FirstMisfit,
) -> Option<usize>
    requires near { before ≤ walk.now.limit }
    requires schema { IsReadySchema walk.now.layout.now }
    requires level { level_at walk.now.layout.now n ≡ Some level.now }
    requires shallow { groups_deep level.now ≤ most_groups }
    requires shape { block_shape level.now entry.now ≡ None }
    ensures told { place_or_misfit result out.new ≡ entry_room walk.now.limit level.now before entry.now }
    ensures within { IfSome result (λ k. k ≤ walk.now.limit) }
    ensures low { IfNone result (length out.new.path ≤ 2 * groups_deep level.now + 6) }
{
    let size = level.block_length as usize;
    match take_block(walk.limit, before, size, &level.fields, &entry.fields, out) {
        Some(after) => take_tail(walk, n, level, entry, after, out),
        None => None,
    }
}

/// Counts the groups and then the data of a block.
#[cycle(room)]
pub(crate) fn take_tail(
    walk: &Walk<'_>,
    n: usize,
    level: &Level,
    block: &Block,
    before: usize,
    out: &mut FirstMisfit,
) -> Option<usize>
    requires near { before ≤ walk.now.limit }
    requires schema { IsReadySchema walk.now.layout.now }
    requires level { level_at walk.now.layout.now n ≡ Some level.now }
    requires shallow { groups_deep level.now ≤ most_groups }
    requires shape { block_shape level.now block.now ≡ None }
    ensures told { place_or_misfit result out.new ≡ tail_taken walk.now.limit before level.now block.now }
    ensures within { IfSome result (λ k. k ≤ walk.now.limit) }
    ensures low { IfNone result (length out.new.path ≤ 2 * groups_deep level.now + 6) }
{
    match take_groups(walk, n, level, block, before, out) {
        Some(after) => take_parts(walk.limit, after, level, block, out),
        None => None,
    }
}

/// Counts the groups of a block.
#[cycle(room)]
fn take_groups(
    walk: &Walk<'_>,
    n: usize,
    level: &Level,
    block: &Block,
    before: usize,
    out: &mut FirstMisfit,
) -> Option<usize>
    requires near { before ≤ walk.now.limit }
    requires schema { IsReadySchema walk.now.layout.now }
    requires level { level_at walk.now.layout.now n ≡ Some level.now }
    requires shallow { groups_deep level.now ≤ most_groups }
    requires shape { block_shape level.now block.now ≡ None }
    ensures told { place_or_misfit result out.new ≡ groups_room walk.now.limit (length (out-Level level.now).fields) before (out-Level level.now).groups (out-Block block.now).groups }
    ensures within { IfSome result (λ k. k ≤ walk.now.limit) }
    ensures low { IfNone result (length out.new.path ≤ 2 * groups_deep level.now + 6) }
{
    let first = level.fields.len();
    let mut child = first_child(walk.layout, n);
    let mut at = before;
    for i in 0..level.groups.len() {
        match take_group(walk, child, level.groups.at(i), block.groups.at(i), at, out) {
            Some(after) => at = after,
            None => {
                out.inside(Step::Part((first + i) as u32));
                return None;
            }
        }
        child = walk.layout.row(child).end;
    }
    Some(at)
}

/// The number of the level that follows a level.
pub(crate) fn first_child(layout: &Layout, n: usize) -> usize
    requires { n < length (all_nodes layout.now) }
    ensures { result ≡ n + 1 }
{
    let _levels = layout.levels();
    n + 1
}

/// Counts a group, whose entries' level has this number: the number of its entries is checked before the room for its
/// dimension.
#[cycle(room)]
fn take_group(
    walk: &Walk<'_>,
    n: usize,
    group: &Group,
    value: &GroupVal,
    before: usize,
    out: &mut FirstMisfit,
) -> Option<usize>
    requires near { before ≤ walk.now.limit }
    requires schema { IsReadySchema walk.now.layout.now }
    requires level { level_at walk.now.layout.now n ≡ Some (out-Group group.now).level }
    requires dim { dim_at walk.now.layout.now n ≡ Some (out-Group group.now).dim }
    requires shallow { groups_deep (out-Group group.now).level ≤ most_groups }
    requires shape { group_shape group.now value.now ≡ None }
    ensures told { place_or_misfit result out.new ≡ group_taken walk.now.limit before group.now value.now }
    ensures within { IfSome result (λ k. k ≤ walk.now.limit) }
    ensures low { IfNone result (length out.new.path ≤ 2 * groups_deep (out-Group group.now).level + 7) }
{
    match value {
        GroupVal::Absent => Some(before),
        GroupVal::Entries(entries) => {
            match take_dim(walk, n, entries.len(), before, out) {
                Some(after) => take_entries(walk, n, &group.level, entries, after, out),
                None => None,
            }
        }
    }
}

/// Counts the dimension of a group, whose entries' level has this number.
#[tactic(auto, using(crate::proofs::RoomSteps::dim_there, crate::proofs::RoomSteps::dim_refused, crate::proofs::RoomSteps::dim_taken, crate::proofs::RoomSteps::count_few))]
fn take_dim(
    walk: &Walk<'_>,
    n: usize,
    count: usize,
    before: usize,
    out: &mut FirstMisfit,
) -> Option<usize>
    requires near { before ≤ walk.now.limit }
    requires schema { IsReadySchema walk.now.layout.now }
    requires level { n < length (all_nodes walk.now.layout.now) }
    requires group { IsSome (dim_at walk.now.layout.now n) }
    ensures told { (dim : List Member) → dim_at walk.now.layout.now n ≡ Some dim → place_or_misfit result out.new ≡ dim_room walk.now.limit before dim count }
    ensures admitted { (dim : List Member) → dim_at walk.now.layout.now n ≡ Some dim → IfSome result (λ k. is_admitted dim (codes "numInGroup") count ≡ true) }
    ensures few { IfSome result (λ k. count < 2 ^ 32) }
    ensures within { IfSome result (λ k. k ≤ walk.now.limit) }
    ensures low { IfNone result (length out.new.path ≤ 0) }
{
    match &walk.layout.row(n).dim {
        Some(row) => {
            if !row.count.leaf.admits(count as i128) {
                out.tell(NCode::Count, count as i128);
                return None;
            }
            take_room(walk.limit, before, row.width as usize, out)
        }
        None => unreachable!(),
    }
}

/// Counts the entries of a group, whose level has this number.
#[cycle(room)]
fn take_entries(
    walk: &Walk<'_>,
    n: usize,
    level: &Level,
    entries: &List<Block>,
    before: usize,
    out: &mut FirstMisfit,
) -> Option<usize>
    requires near { before ≤ walk.now.limit }
    requires schema { IsReadySchema walk.now.layout.now }
    requires level { level_at walk.now.layout.now n ≡ Some level.now }
    requires shallow { groups_deep level.now ≤ most_groups }
    requires shape { each_misfit (λ entry. block_shape level.now entry) 0 entries.now ≡ None }
    requires few { length entries.now < 2 ^ 32 }
    ensures told { place_or_misfit result out.new ≡ each_taken (λ at entry. entry_room walk.now.limit level.now at entry) 0 before entries.now }
    ensures within { IfSome result (λ k. k ≤ walk.now.limit) }
    ensures low { IfNone result (length out.new.path ≤ 2 * groups_deep level.now + 7) }
{
    let mut at = before;
    for i in 0..entries.len() {
        match take_entry(walk, n, level, entries.at(i), at, out) {
            Some(after) => at = after,
            None => {
                out.inside(Step::Entry(i as u32));
                return None;
            }
        }
    }
    Some(at)
}

/// The smaller of two numbers.
pub(crate) fn shorter(a: usize, b: usize) -> usize
    ensures { result ≡ min a b }
{
    if a <= b { a } else { b }
}
