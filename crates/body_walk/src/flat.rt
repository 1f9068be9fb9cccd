// Blocks of levels without groups and data.
ghost use Rattle.std.specs.Prelude.{◌≡◌, ◌≤◌, ◌<◌, ◌+◌, ◌-◌, Ok, true, length, take, drop, IfSome, IfNone};
ghost use Rattle.sbe_types.specs.declared.schema.Level.{out-Level};
ghost use Rattle.sbe_wire.specs.Versions.{floor};
ghost use Rattle.flat_rows.specs.Tables.{IsTable, RowsFit};
ghost use Rattle.layout_tables.specs.Rowed.{RowFor};
ghost use Rattle.body_walk.specs.inner.Blocks.{ShowsEach};
ghost use Rattle.body_walk.specs.inner.Cursor.{skim, entries_read, steps_end};
ghost use Rattle.body_walk.specs.inner.Layers.{IsLayer};
ghost use Rattle.body_walk.specs.inner.Outcomes.{place_or_fault};

use crate::blocks::{shows_block, walk_block};
use crate::found::Found;
use crate::layer::Layer;
use group_codec::Dim;
use layout_tables::LevelRow;
use sbe_types::Step;
use sbe_wire::Mode;

/// The offset after a root without groups and data, if the fast check accepts each value.
#[inline(always)]
pub(crate) fn behind_root(layer: &Layer<'_>, row: &LevelRow, block: u32, at: usize) -> Option<usize>
    requires layer { IsLayer layer.now }
    requires row { RowFor layer.now.layout.now layer.now.number row.now }
    requires groups { length (out-Level layer.now.level.now).groups ≡ 0 }
    requires parts { length (out-Level layer.now.level.now).parts ≡ 0 }
    requires reaches { floor layer.now.mode.version (out-Level layer.now.level.now).fields ≤ block }
    requires at { at ≤ length layer.now.body.now }
    ensures told { IfSome result (λ next. Ok next ≡ skim (entries_read layer.now.mode layer.now.level.now block) layer.now.body.now at) }
    ensures within { IfSome result (λ next. next ≤ length layer.now.body.now) }
{
    if !shows_root(layer.mode, row, layer.body, at, block) {
        return None;
    }
    Some(at + block as usize)
}

/// The same as [`shows_block`], as a separate call: a root is checked where its view is made.
#[inline(never)]
fn shows_root(mode: Mode, row: &LevelRow, body: &[u8], at: usize, block: u32) -> bool
    requires table { IsTable row.now.flat }
    requires fits { row.now.newest ≤ mode.version → RowsFit block row.now.flat.rows.items }
    requires at { at ≤ length body.now }
    ensures room { result ≡ true → at + block ≤ length body.now }
    ensures shows { result ≡ true → ShowsEach mode row.now (take block (drop at body.now)) }
{
    shows_block(mode, row, body, at, block)
}

/// Walks the entries of a group without groups and data, from the end of its dimension on.
pub(crate) fn walk_blocks(layer: &Layer<'_>, dim: Dim, out: &mut Found) -> Option<usize>
    requires layer { IsLayer layer.now }
    requires groups { length (out-Level layer.now.level.now).groups ≡ 0 }
    requires parts { length (out-Level layer.now.level.now).parts ≡ 0 }
    requires reaches { 0 < dim.count → floor layer.now.mode.version (out-Level layer.now.level.now).fields ≤ dim.block }
    requires at { dim.after ≤ length layer.now.body.now }
    ensures told { place_or_fault result out.new ≡ steps_end (skim (entries_read layer.now.mode layer.now.level.now dim.block) layer.now.body.now) 0 dim.count dim.after }
    ensures within { IfSome result (λ next. next ≤ length layer.now.body.now) }
    ensures low { IfNone result (length out.new.path ≤ 7) }
{
    let row = layer.layout.row(layer.number);
    let reached = walk_shown(layer, row, dim);
    let mut at = reached.at;
    for i in reached.entry..dim.count {
        // A separate copy, so that nothing is stored where it isn't needed.
        let layer = *layer;
        match walk_flat(&layer, row, dim.block, at, out) {
            Some(next) => at = next,
            None => {
                out.under(Step::Entry(i));
                return None;
            }
        }
    }
    Some(at)
}

/// How far entries were walked: up to this one, which begins at this offset.
#[derive(Clone, Copy)]
struct Reached {
    entry: u32,
    at: usize,
}

/// Walks the first entries of a group without groups and data, as far as the fast check accepts them.
#[inline(always)]
fn walk_shown(layer: &Layer<'_>, row: &LevelRow, dim: Dim) -> Reached
    requires layer { IsLayer layer.now }
    requires row { RowFor layer.now.layout.now layer.now.number row.now }
    requires groups { length (out-Level layer.now.level.now).groups ≡ 0 }
    requires parts { length (out-Level layer.now.level.now).parts ≡ 0 }
    requires reaches { 0 < dim.count → floor layer.now.mode.version (out-Level layer.now.level.now).fields ≤ dim.block }
    requires at { dim.after ≤ length layer.now.body.now }
    ensures near { result.at ≤ length layer.now.body.now }
    ensures told { steps_end (skim (entries_read layer.now.mode layer.now.level.now dim.block) layer.now.body.now) result.entry (dim.count - result.entry) result.at
        ≡ steps_end (skim (entries_read layer.now.mode layer.now.level.now dim.block) layer.now.body.now) 0 dim.count dim.after }
{
    let mut at = dim.after;
    for i in 0..dim.count {
        match behind_shown(layer, row, dim.block, at) {
            Some(next) => at = next,
            None => return Reached { entry: i, at },
        }
    }
    Reached {
        entry: dim.count,
        at,
    }
}

/// The offset after an entry of a level without groups and data, if the fast check accepts each value.
#[inline(always)]
fn behind_shown(layer: &Layer<'_>, row: &LevelRow, block: u32, at: usize) -> Option<usize>
    requires layer { IsLayer layer.now }
    requires row { RowFor layer.now.layout.now layer.now.number row.now }
    requires groups { length (out-Level layer.now.level.now).groups ≡ 0 }
    requires parts { length (out-Level layer.now.level.now).parts ≡ 0 }
    requires reaches { floor layer.now.mode.version (out-Level layer.now.level.now).fields ≤ block }
    requires at { at ≤ length layer.now.body.now }
    ensures told { IfSome result (λ next. Ok next ≡ skim (entries_read layer.now.mode layer.now.level.now block) layer.now.body.now at) }
    ensures within { IfSome result (λ next. next ≤ length layer.now.body.now) }
{
    if !shows_block(layer.mode, row, layer.body, at, block) {
        return None;
    }
    Some(at + block as usize)
}

/// Walks an entry of a level without groups and data, by the level's row.
#[inline(never)]
fn walk_flat(
    layer: &Layer<'_>,
    row: &LevelRow,
    block: u32,
    at: usize,
    out: &mut Found,
) -> Option<usize>
    requires layer { IsLayer layer.now }
    requires row { RowFor layer.now.layout.now layer.now.number row.now }
    requires groups { length (out-Level layer.now.level.now).groups ≡ 0 }
    requires parts { length (out-Level layer.now.level.now).parts ≡ 0 }
    requires reaches { floor layer.now.mode.version (out-Level layer.now.level.now).fields ≤ block }
    requires at { at ≤ length layer.now.body.now }
    ensures told { place_or_fault result out.new ≡ skim (entries_read layer.now.mode layer.now.level.now block) layer.now.body.now at }
    ensures within { IfSome result (λ next. next ≤ length layer.now.body.now) }
    ensures low { IfNone result (length out.new.path ≤ 6) }
{
    walk_block(layer.mode, row, layer.level, block, layer.body, at, out)
}
