// What follows the entries and groups of a body that was walked. Nothing is checked again.
ghost use Rattle.std.specs.Prelude.{◌≡◌, ◌≤◌, ◌<◌, ◌+◌, ◌∷◌, ◌&&◌, ◌==◌, true, length, take, drop, IfSome, IsOk};
ghost use Rattle.std.specs.Option.{option_map};
ghost use Rattle.sbe_types.specs.declared.schema.Group.{out-Group};
ghost use Rattle.sbe_types.specs.declared.schema.Level.{out-Level};
ghost use Rattle.layout_tables.specs.Heads.{number_at};
ghost use Rattle.layout_tables.specs.Parts.{dim_at};
ghost use Rattle.layout_tables.specs.Rowed.{as_spot};
ghost use Rattle.group_codec.specs.Dims.{IsDimRow};
ghost use Rattle.body_walk.specs.inner.Cursor.{entries_read};
ghost use Rattle.flyweight_view.specs.inner.Groups.{group_entered, groups_at, groups_by, groups_left, StandThere};
ghost use Rattle.flyweight_view.specs.inner.Layers.{blocks_at, typed_entries, LieThere};
ghost use Rattle.body_walk.specs.inner.Layers.{IsLayer};
ghost use Rattle.flyweight_view.specs.inner.Lefts.{rest_of};
ghost use Rattle.flyweight_view.specs.inner.Planned.{block_of};
ghost use Rattle.flyweight_view.specs.TypedBlocks.{typed_level};

use crate::ranges::parts_end;
use body_walk::{Layer, first_child, is_flat};
use group_codec::Dim;
use layout_tables::{DimRow, number_at};
use sbe_types::{Group, Order};

/// The next group of a level: its number there, the number of its entries' level, and its offset.
#[derive(Clone, Copy)]
pub(crate) struct GroupCursor {
    pub(crate) next: usize,
    pub(crate) child: usize,
    pub(crate) at: usize,
}

/// A group of a level: the level of its entries, their dimension, and the cursor of the next group.
#[derive(Clone, Copy)]
pub(crate) struct NextGroup<'a> {
    pub(crate) inner: Layer<'a>,
    pub(crate) dim: Option<Dim>,
    pub(crate) after: GroupCursor,
}

// ---- entries

/// The entries after the first one. After the last one no offset is computed.
#[inline(always)]
pub(crate) fn others_of(layer: &Layer<'_>, left: Dim) -> Dim
    requires layer { IsLayer layer.now }
    requires lie { LieThere layer.now left }
    requires some { 0 < left.count }
    ensures lie { LieThere layer.now result }
    ensures seen { typed_entries layer.now left ≡ typed_level layer.now.level.now (block_of (entries_read layer.now.mode layer.now.level.now left.block (drop left.after layer.now.body.now))) ∷ typed_entries layer.now result }
{
    if left.count == 1 {
        return Dim {
            block: left.block,
            count: 0,
            after: left.after,
        };
    }
    if is_flat(layer.level) {
        return flat_behind(layer, left);
    }
    // A separate copy, so that nothing is stored where it isn't needed.
    let layer = *layer;
    behind_first(&layer, left)
}

/// The entries after the first one, if they have neither groups nor data.
#[inline(always)]
pub(crate) fn flat_behind(layer: &Layer<'_>, left: Dim) -> Dim
    requires lie { LieThere layer.now left }
    requires some { 0 < left.count }
    requires flat { (length (out-Level layer.now.level.now).groups == 0) && (length (out-Level layer.now.level.now).parts == 0) ≡ true }
    ensures lie { LieThere layer.now result }
    ensures seen { typed_entries layer.now left ≡ typed_level layer.now.level.now (block_of (entries_read layer.now.mode layer.now.level.now left.block (drop left.after layer.now.body.now))) ∷ typed_entries layer.now result }
{
    let _body = layer.body;
    Dim {
        block: left.block,
        count: left.count - 1,
        after: left.after + left.block as usize,
    }
}

/// The offset after entries without groups and data.
#[inline(always)]
fn flat_end(layer: &Layer<'_>, dim: Dim) -> usize
    requires lie { LieThere layer.now dim }
    requires flat { (length (out-Level layer.now.level.now).groups == 0) && (length (out-Level layer.now.level.now).parts == 0) ≡ true }
    ensures rest { rest_of (blocks_at layer.now dim) ≡ drop result layer.now.body.now }
    ensures within { result ≤ length layer.now.body.now }
{
    let _body = layer.body;
    dim.after + dim.count as usize * dim.block as usize
}

/// The offset after entries that follow one another.
#[cycle(ends)]
#[inline(never)]
fn entries_end(layer: &Layer<'_>, dim: Dim) -> usize
    requires layer { IsLayer layer.now }
    requires lie { LieThere layer.now dim }
    ensures rest { rest_of (blocks_at layer.now dim) ≡ drop result layer.now.body.now }
    ensures within { result ≤ length layer.now.body.now }
{
    let mut left = dim;
    for _ in 0..dim.count {
        left = behind_first(layer, left);
    }
    left.after
}

/// The entries after the first one.
#[cycle(ends)]
fn behind_first(layer: &Layer<'_>, left: Dim) -> Dim
    requires layer { IsLayer layer.now }
    requires lie { LieThere layer.now left }
    requires some { 0 < left.count }
    ensures lie { LieThere layer.now result }
    ensures count { result.count + 1 ≡ left.count }
    ensures seen { typed_entries layer.now left ≡ typed_level layer.now.level.now (block_of (entries_read layer.now.mode layer.now.level.now left.block (drop left.after layer.now.body.now))) ∷ typed_entries layer.now result }
    ensures rest { rest_of (blocks_at layer.now left) ≡ rest_of (blocks_at layer.now result) }
{
    let after = entry_end(layer, left);
    Dim {
        block: left.block,
        count: left.count - 1,
        after,
    }
}

/// The offset after the first one of some entries.
#[cycle(ends)]
#[inline(never)]
fn entry_end(layer: &Layer<'_>, left: Dim) -> usize
    requires layer { IsLayer layer.now }
    requires lie { LieThere layer.now left }
    requires some { 0 < left.count }
    ensures rest { rest_of (entries_read layer.now.mode layer.now.level.now left.block (drop left.after layer.now.body.now)) ≡ drop result layer.now.body.now }
    ensures within { result ≤ length layer.now.body.now }
{
    let cursor = GroupCursor {
        next: 0,
        child: first_child(layer.layout, layer.number),
        at: left.after + left.block as usize,
    };
    let at = groups_end(layer, cursor);
    parts_end(layer, at)
}

// ---- groups

/// The next group of a level. After the last one no offset is computed.
#[inline(always)]
pub(crate) fn open_group<'a>(layer: &Layer<'a>, cursor: GroupCursor) -> NextGroup<'a>
    requires layer { IsLayer layer.now }
    requires stand { StandThere layer.now cursor }
    requires more { cursor.next < length (out-Level layer.now.level.now).groups }
    ensures inner { IsLayer result.inner }
    ensures lie { IfSome result.dim (λ d. LieThere result.inner d) }
    ensures stand { StandThere layer.now result.after }
    ensures next { result.after.next ≡ cursor.next + 1 }
    ensures seen { groups_left layer.now cursor ≡ option_map (typed_entries result.inner) result.dim ∷ groups_left layer.now result.after }
{
    if cursor.next + 1 < layer.level.groups.len() {
        return step_group(layer, cursor);
    }
    last_group(layer, cursor)
}

/// The last group of a level. It has no valid offset for a next group.
#[inline(always)]
fn last_group<'a>(layer: &Layer<'a>, cursor: GroupCursor) -> NextGroup<'a>
    requires layer { IsLayer layer.now }
    requires stand { StandThere layer.now cursor }
    requires last { cursor.next + 1 ≡ length (out-Level layer.now.level.now).groups }
    ensures inner { IsLayer result.inner }
    ensures lie { IfSome result.dim (λ d. LieThere result.inner d) }
    ensures stand { StandThere layer.now result.after }
    ensures next { result.after.next ≡ cursor.next + 1 }
    ensures seen { groups_left layer.now cursor ≡ option_map (typed_entries result.inner) result.dim ∷ groups_left layer.now result.after }
{
    let group = layer.level.groups.at(cursor.next);
    let inner = Layer {
        layout: layer.layout,
        number: cursor.child,
        level: &group.level,
        mode: layer.mode,
        body: layer.body,
    };
    let dim = dim_there(&inner, group, cursor.at);
    let child = layer.layout.row(cursor.child).end;
    NextGroup {
        inner,
        dim,
        after: GroupCursor {
            next: cursor.next + 1,
            child,
            at: cursor.at,
        },
    }
}

/// The offset after the groups of a level, given the first one.
#[cycle(ends)]
#[inline(always)]
pub(crate) fn groups_end(layer: &Layer<'_>, cursor: GroupCursor) -> usize
    requires layer { IsLayer layer.now }
    requires stand { StandThere layer.now cursor }
    requires first { cursor.next ≡ 0 }
    ensures rest { rest_of (groups_at layer.now cursor) ≡ drop result layer.now.body.now }
    ensures within { result ≤ length layer.now.body.now }
{
    let mut cursor = cursor;
    for _ in 0..layer.level.groups.len() {
        cursor = step_group(layer, cursor).after;
    }
    cursor.at
}

/// The next group of a level.
#[cycle(ends)]
#[inline(always)]
fn step_group<'a>(layer: &Layer<'a>, cursor: GroupCursor) -> NextGroup<'a>
    requires layer { IsLayer layer.now }
    requires stand { StandThere layer.now cursor }
    requires more { cursor.next < length (out-Level layer.now.level.now).groups }
    ensures inner { IsLayer result.inner }
    ensures lie { IfSome result.dim (λ d. LieThere result.inner d) }
    ensures stand { StandThere layer.now result.after }
    ensures next { result.after.next ≡ cursor.next + 1 }
    ensures seen { groups_left layer.now cursor ≡ option_map (typed_entries result.inner) result.dim ∷ groups_left layer.now result.after }
    ensures rest { rest_of (groups_at layer.now cursor) ≡ rest_of (groups_at layer.now result.after) }
{
    let group = layer.level.groups.at(cursor.next);
    let inner = Layer {
        layout: layer.layout,
        number: cursor.child,
        level: &group.level,
        mode: layer.mode,
        body: layer.body,
    };
    let dim = dim_there(&inner, group, cursor.at);
    let at = group_end(&inner, dim, cursor.at);
    let child = layer.layout.row(cursor.child).end;
    NextGroup {
        inner,
        dim,
        after: GroupCursor {
            next: cursor.next + 1,
            child,
            at,
        },
    }
}

/// The dimension of a group that begins at an offset, given the level of its entries. `None` if the group is absent.
#[inline(always)]
fn dim_there(layer: &Layer<'_>, group: &Group, at: usize) -> Option<Dim>
    requires layer { IsLayer layer.now }
    requires level { layer.now.level.now ≡ (out-Group group.now).level }
    requires dim { dim_at layer.now.layout.now layer.now.number ≡ Some (out-Group group.now).dim }
    requires at { at ≤ length layer.now.body.now }
    requires read { IsOk (groups_by layer.now.mode group.now (drop at layer.now.body.now)) }
    ensures told { groups_by layer.now.mode group.now (drop at layer.now.body.now) ≡ group_entered layer.now at result }
    ensures lie { IfSome result (λ d. LieThere layer.now d) }
{
    let row = layer.layout.row(layer.number);
    if row.since > layer.mode.version {
        return None;
    }
    match &row.dim {
        Some(dim) => Some(stood_dim(layer.mode.order, dim, layer.body, at)),
        None => unreachable!(),
    }
}

/// The dimension at an offset where there is a valid one: its numbers are read, and not checked again.
#[inline(always)]
fn stood_dim(order: Order, row: &DimRow, body: &[u8], at: usize) -> Dim
    requires row { IsDimRow row.now }
    requires room { at + row.now.width ≤ length body.now }
    ensures block { result.block ≡ number_at order (as_spot row.now.block) (take row.now.width (drop at body.now)) }
    ensures count { result.count ≡ number_at order (as_spot row.now.count) (take row.now.width (drop at body.now)) }
    ensures after { result.after ≡ at + row.now.width }
{
    let after = at + row.width as usize;
    let head = &body[at..after];
    Dim {
        block: number_at(order, &row.block, head),
        count: number_at(order, &row.count, head),
        after,
    }
}

/// The offset after a group that begins at an offset, given its dimension. If its entries have no groups and data it is
/// computed directly.
#[cycle(ends)]
#[inline(always)]
fn group_end(layer: &Layer<'_>, dim: Option<Dim>, at: usize) -> usize
    requires layer { IsLayer layer.now }
    requires lie { IfSome dim (λ d. LieThere layer.now d) }
    requires at { at ≤ length layer.now.body.now }
    requires read { IsOk (group_entered layer.now at dim) }
    ensures rest { rest_of (group_entered layer.now at dim) ≡ drop result layer.now.body.now }
    ensures within { result ≤ length layer.now.body.now }
{
    match dim {
        Some(dim) => {
            if is_flat(layer.level) {
                return flat_end(layer, dim);
            }
            // A separate copy, so that nothing is stored where it isn't needed.
            let layer = *layer;
            entries_end(&layer, dim)
        }
        None => at,
    }
}
