// The levels of a body: their entries, groups and data.
ghost use Rattle.std.specs.Prelude.{◌≡◌, ◌≤◌, ◌<◌, ◌+◌, ◌*◌, Some, length, IfSome, IfNone};
ghost use Rattle.sbe_types.specs.declared.limits.TheConstants.{PART_LIMIT};
ghost use Rattle.sbe_types.specs.declared.schema.Group.{out-Group};
ghost use Rattle.sbe_types.specs.declared.schema.Level.{out-Level};
ghost use Rattle.sbe_wire.specs.Reading.{tail_read, group_read};
ghost use Rattle.sbe_wire.specs.Versions.{floor};
ghost use Rattle.schema_rules.specs.PartRules.{most_groups};
ghost use Rattle.schema_facts.specs.CheckedLevels.{groups_deep};
ghost use Rattle.schema_facts.specs.Levels.{level_at};
ghost use Rattle.layout_tables.specs.Parts.{dim_at};
ghost use Rattle.body_walk.specs.inner.Cursor.{skim, entries_read, groups_end, steps_end};
ghost use Rattle.body_walk.specs.inner.Ready.{IsReadySchema};
ghost use Rattle.body_walk.specs.inner.Outcomes.{place_or_fault};

use crate::blocks::walk_block;
use crate::data::walk_parts;
use crate::dims::walk_dim;
use crate::flat::{behind_root, walk_blocks};
use crate::found::Found;
use crate::layer::{Layer, first_child, is_flat};
use group_codec::Dim;
use layout_tables::Layout;
use sbe_types::{Group, Level, Step};
use sbe_wire::Mode;

/// Walks a block of `block` bytes at an offset of the body, and then the groups and the data of its level. Returns the
/// offset after them. If it returns `None`, `out` receives the first fault.
#[cycle(walk)]
fn walk_entry(
    layout: &Layout,
    mode: Mode,
    n: usize,
    level: &Level,
    block: u32,
    body: &[u8],
    at: usize,
    out: &mut Found,
) -> Option<usize>
    requires schema { IsReadySchema layout.now }
    requires level { level_at layout.now n ≡ Some level.now }
    requires shallow { groups_deep level.now ≤ most_groups }
    requires reaches { floor mode.version (out-Level level.now).fields ≤ block }
    requires at { at ≤ length body.now }
    ensures told { place_or_fault result out.new ≡ skim (entries_read mode level.now block) body.now at }
    ensures within { IfSome result (λ next. next ≤ length body.now) }
    ensures low { IfNone result (length out.new.path ≤ 2 * groups_deep level.now + 6) }
{
    match walk_block(mode, layout.row(n), level, block, body, at, out) {
        Some(next) => {
            if is_flat(level) {
                return Some(next);
            }
            walk_tail(layout, mode, n, level, body, next, out)
        }
        None => None,
    }
}

/// The same for a root. If it has no groups and data it is first checked by its table, apart from the walk over groups
/// and data.
#[inline(always)]
pub(crate) fn walk_root(
    layout: &Layout,
    mode: Mode,
    n: usize,
    level: &Level,
    block: u32,
    body: &[u8],
    at: usize,
    out: &mut Found,
) -> Option<usize>
    requires schema { IsReadySchema layout.now }
    requires level { level_at layout.now n ≡ Some level.now }
    requires shallow { groups_deep level.now ≤ most_groups }
    requires reaches { floor mode.version (out-Level level.now).fields ≤ block }
    requires at { at ≤ length body.now }
    ensures told { place_or_fault result out.new ≡ skim (entries_read mode level.now block) body.now at }
    ensures within { IfSome result (λ next. next ≤ length body.now) }
    ensures low { IfNone result (length out.new.path ≤ 2 * groups_deep level.now + 6) }
{
    if is_flat(level) {
        let layer = Layer {
            layout,
            number: n,
            level,
            mode,
            body,
        };
        if let Some(next) = behind_root(&layer, layout.row(n), block, at) {
            return Some(next);
        }
    }
    walk_entry(layout, mode, n, level, block, body, at, out)
}

/// Walks the groups and then the data of a level, from an offset on.
#[cycle(walk)]
fn walk_tail(
    layout: &Layout,
    mode: Mode,
    n: usize,
    level: &Level,
    body: &[u8],
    at: usize,
    out: &mut Found,
) -> Option<usize>
    requires schema { IsReadySchema layout.now }
    requires level { level_at layout.now n ≡ Some level.now }
    requires shallow { groups_deep level.now ≤ most_groups }
    requires at { at ≤ length body.now }
    ensures told { place_or_fault result out.new ≡ skim (tail_read mode level.now) body.now at }
    ensures within { IfSome result (λ next. next ≤ length body.now) }
    ensures low { IfNone result (length out.new.path ≤ 2 * groups_deep level.now + 6) }
{
    match walk_groups(layout, mode, n, level, body, at, out) {
        Some(next) => {
            let first = first_part(level);
            walk_parts(mode, layout.row(n).parts.as_slice(), first, body, next, out)
        }
        None => None,
    }
}

/// Walks the groups of a level, from an offset on.
#[cycle(walk)]
fn walk_groups(
    layout: &Layout,
    mode: Mode,
    n: usize,
    level: &Level,
    body: &[u8],
    at: usize,
    out: &mut Found,
) -> Option<usize>
    requires schema { IsReadySchema layout.now }
    requires level { level_at layout.now n ≡ Some level.now }
    requires shallow { groups_deep level.now ≤ most_groups }
    requires at { at ≤ length body.now }
    ensures told { place_or_fault result out.new ≡ groups_end mode (length (out-Level level.now).fields) (out-Level level.now).groups body.now at }
    ensures within { IfSome result (λ next. next ≤ length body.now) }
    ensures low { IfNone result (length out.new.path ≤ 2 * groups_deep level.now + 6) }
{
    let first = level.fields.len();
    let groups = level.groups.as_slice();
    let mut child = first_child(layout, n);
    let mut at = at;
    for i in 0..groups.len() {
        match walk_group(layout, mode, child, &groups[i], body, at, out) {
            Some(next) => at = next,
            None => {
                out.under(Step::Part((first + i) as u32));
                return None;
            }
        }
        child = layout.row(child).end;
    }
    Some(at)
}

/// The number of a level's first data part, counted among its parts.
fn first_part(level: &Level) -> usize
    requires { length (out-Level level.now).fields + length (out-Level level.now).groups ≤ PART_LIMIT }
    ensures { result ≡ length (out-Level level.now).fields + length (out-Level level.now).groups }
{
    level.fields.len() + level.groups.len()
}

/// Walks a group, whose entries' level has this number, from an offset on.
#[cycle(walk)]
fn walk_group(
    layout: &Layout,
    mode: Mode,
    n: usize,
    group: &Group,
    body: &[u8],
    at: usize,
    out: &mut Found,
) -> Option<usize>
    requires schema { IsReadySchema layout.now }
    requires level { level_at layout.now n ≡ Some (out-Group group.now).level }
    requires dim { dim_at layout.now n ≡ Some (out-Group group.now).dim }
    requires shallow { groups_deep (out-Group group.now).level ≤ most_groups }
    requires at { at ≤ length body.now }
    ensures told { place_or_fault result out.new ≡ skim (group_read mode group.now) body.now at }
    ensures within { IfSome result (λ next. next ≤ length body.now) }
    ensures low { IfNone result (length out.new.path ≤ 2 * groups_deep (out-Group group.now).level + 7) }
{
    let row = layout.row(n);
    if row.since > mode.version {
        return Some(at);
    }
    let least = layout.floor(n, mode.version);
    match &row.dim {
        Some(dim) => match walk_dim(mode.order, dim, least, body, at, out) {
            Some(dim) => walk_entries(layout, mode, n, &group.level, dim, body, out),
            None => None,
        },
        None => unreachable!(),
    }
}

/// Walks the entries of a group, from the end of its dimension on.
#[cycle(walk)]
fn walk_entries(
    layout: &Layout,
    mode: Mode,
    n: usize,
    level: &Level,
    dim: Dim,
    body: &[u8],
    out: &mut Found,
) -> Option<usize>
    requires schema { IsReadySchema layout.now }
    requires level { level_at layout.now n ≡ Some level.now }
    requires shallow { groups_deep level.now ≤ most_groups }
    requires reaches { 0 < dim.count → floor mode.version (out-Level level.now).fields ≤ dim.block }
    requires at { dim.after ≤ length body.now }
    ensures told { place_or_fault result out.new ≡ steps_end (skim (entries_read mode level.now dim.block) body.now) 0 dim.count dim.after }
    ensures within { IfSome result (λ next. next ≤ length body.now) }
    ensures low { IfNone result (length out.new.path ≤ 2 * groups_deep level.now + 7) }
{
    if is_flat(level) {
        let layer = Layer {
            layout,
            number: n,
            level,
            mode,
            body,
        };
        return walk_blocks(&layer, dim, out);
    }
    let mut at = dim.after;
    for i in 0..dim.count {
        match walk_entry(layout, mode, n, level, dim.block, body, at, out) {
            Some(next) => at = next,
            None => {
                out.under(Step::Entry(i));
                return None;
            }
        }
    }
    Some(at)
}
