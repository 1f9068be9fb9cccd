ghost use Rattle.std.specs.Prelude.{◌≡◌, ◌≤◌, ◌<◌, ◌+◌, ◌&&◌, ◌==◌, List, Some, IfSome, length};
ghost use Rattle.std.specs.List.{AllByRecursion};
ghost use Rattle.std.specs.Option.{option_map};
ghost use Rattle.std.specs.Result.{result_ok};
ghost use Rattle.sbe_types.specs.declared.kind.Member.{Member};
ghost use Rattle.sbe_types.specs.declared.schema.Group.{out-Group};
ghost use Rattle.sbe_types.specs.declared.schema.Level.{out-Level};
ghost use Rattle.schema_facts.specs.IsChecked.{IsChecked};
ghost use Rattle.schema_facts.specs.Levels.{all_nodes, level_at};
ghost use Rattle.schema_facts.specs.Measured.{IsSmall};
ghost use Rattle.layout_tables.specs.Parts.{dim_at};
ghost use Rattle.layout_tables.specs.Rowed.{DimIs};
ghost use Rattle.group_codec.specs.Dims.{IsDimRow};
ghost use Rattle.body_walk.specs.inner.Cursor.{dim_from};
ghost use Rattle.level_skip.specs.Passing.{entry_in, group_passed, level_passed};
ghost use Rattle.level_skip.specs.Behind.{offset_after, bytes_behind, groups_behind, part_behind, parts_behind, steps_behind};

use group_codec::{Dim, DimErr, read_dim_row};
use layout_tables::{DimRow, Layout, PartRow};
use sbe_types::{Group, Level, Order};
use var_data::read_data_of;

/// Skips one entry of a level, with all its groups and data, and returns the offset after them. The entry's block
/// begins at an offset of the bytes, and has the length that the dimension states. The contents of blocks aren't
/// checked. Requires a level in range.
///
/// `None` exactly if a part of the entry can't be laid out: a block, a dimension, a length number or data extend past
/// the end of the bytes; a count or a length is out of range; or a block is shorter than the floor of its level at this
/// version (SBE 1.0, "Repeating group encoding", "Variable-length data"). If a count is 0 the block length isn't
/// compared.
pub fn skip_level(
    layout: &Layout,
    level: usize,
    version: u32,
    bytes: &[u8],
    at: usize,
    block: u32,
) -> Option<usize>
    requires level { level < length (all_nodes layout.now) }
    requires at { at ≤ length bytes.now }
    ensures told { option_map (λ l. offset_after (level_passed layout.now.order version l block) bytes.now at) (level_at layout.now level) ≡ Some result }
    ensures within { IfSome result (λ next. next ≤ length bytes.now) }
{
    let _schema = layout.schema();
    if block < layout.floor(level, version) {
        return None;
    }
    pass_entry(
        layout,
        version,
        level,
        layout.level(level),
        block,
        bytes,
        at,
    )
}

/// The offset after an entry of a level, with a block of `block` bytes.
#[cycle(skip)]
fn pass_entry(
    layout: &Layout,
    version: u32,
    n: usize,
    level: &Level,
    block: u32,
    bytes: &[u8],
    at: usize,
) -> Option<usize>
    requires checked { IsChecked layout.now }
    requires level { level_at layout.now n ≡ Some level.now }
    requires at { at ≤ length bytes.now }
    ensures told { result ≡ offset_after (entry_in layout.now.order version level.now block) bytes.now at }
    ensures within { IfSome result (λ next. next ≤ length bytes.now) }
{
    let size = block as usize;
    if bytes.len() - at < size {
        return None;
    }
    match pass_groups(layout, version, n, level, bytes, at + size) {
        Some(next) => {
            let parts = layout.row(n).parts.as_slice();
            pass_parts(layout.order(), version, parts, bytes, next)
        }
        None => None,
    }
}

/// The offset after the groups of a level.
#[cycle(skip)]
fn pass_groups(
    layout: &Layout,
    version: u32,
    n: usize,
    level: &Level,
    bytes: &[u8],
    at: usize,
) -> Option<usize>
    requires checked { IsChecked layout.now }
    requires level { level_at layout.now n ≡ Some level.now }
    requires at { at ≤ length bytes.now }
    ensures told { result ≡ groups_behind layout.now.order version (out-Level level.now).groups bytes.now at }
    ensures within { IfSome result (λ next. next ≤ length bytes.now) }
{
    let groups = level.groups.as_slice();
    let mut child = first_child(layout, n);
    let mut at = at;
    for i in 0..groups.len() {
        match pass_group(layout, version, child, &groups[i], bytes, at) {
            Some(next) => at = next,
            None => return None,
        }
        child = layout.row(child).end;
    }
    Some(at)
}

/// The number of the level that follows a level.
fn first_child(layout: &Layout, n: usize) -> usize
    requires { n < length (all_nodes layout.now) }
    ensures { result ≡ n + 1 }
{
    let _levels = layout.levels();
    n + 1
}

/// The offset after a group, whose entries' level has this number.
#[cycle(skip)]
fn pass_group(
    layout: &Layout,
    version: u32,
    n: usize,
    group: &Group,
    bytes: &[u8],
    at: usize,
) -> Option<usize>
    requires checked { IsChecked layout.now }
    requires level { level_at layout.now n ≡ Some (out-Group group.now).level }
    requires dim { dim_at layout.now n ≡ Some (out-Group group.now).dim }
    requires at { at ≤ length bytes.now }
    ensures told { result ≡ offset_after (group_passed layout.now.order version group.now) bytes.now at }
    ensures within { IfSome result (λ next. next ≤ length bytes.now) }
{
    let row = layout.row(n);
    if row.since > version {
        return Some(at);
    }
    let least = layout.floor(n, version);
    match &row.dim {
        Some(dim) => match find_dim(layout.order(), dim, least, bytes, at) {
            Some(dim) => pass_entries(layout, version, n, &group.level, dim, bytes),
            None => None,
        },
        None => unreachable!(),
    }
}

/// The dimension of a group whose entries have blocks of at least `least` bytes, if there is one.
fn find_dim(order: Order, row: &DimRow, least: u32, bytes: &[u8], at: usize) -> Option<Dim>
    requires row { IsDimRow row.now }
    requires at { at ≤ length bytes.now }
    ensures told { (dim : List Member) → DimIs row.now dim → option_map (λ d. (d.block, d.count)) result ≡ result_ok (dim_from order dim least bytes.now at) }
    ensures after { IfSome result (λ d. d.after ≡ at + row.now.width) }
    ensures within { IfSome result (λ d. d.after ≤ length bytes.now) }
{
    match read_dim_row(order, row, bytes, at) {
        Ok(dim) => {
            if dim.count == 0 || dim.block >= least {
                return Some(dim);
            }
            None
        }
        Err(DimErr::Truncated) => None,
        Err(DimErr::Count(_)) => None,
    }
}

/// The offset after the entries of a group, from the end of its dimension on.
#[cycle(skip)]
fn pass_entries(
    layout: &Layout,
    version: u32,
    n: usize,
    level: &Level,
    dim: Dim,
    bytes: &[u8],
) -> Option<usize>
    requires checked { IsChecked layout.now }
    requires level { level_at layout.now n ≡ Some level.now }
    requires at { dim.after ≤ length bytes.now }
    ensures told { result ≡ steps_behind (offset_after (entry_in layout.now.order version level.now dim.block) bytes.now) dim.count dim.after }
    ensures within { IfSome result (λ next. next ≤ length bytes.now) }
{
    if is_flat(level) {
        return pass_blocks(dim, bytes);
    }
    let mut at = dim.after;
    for _ in 0..dim.count {
        match pass_entry(layout, version, n, level, dim.block, bytes, at) {
            Some(next) => at = next,
            None => return None,
        }
    }
    Some(at)
}

/// Whether a level has neither groups nor data.
fn is_flat(level: &Level) -> bool
    ensures { result ≡ (length (out-Level level.now).groups == 0) && (length (out-Level level.now).parts == 0) }
{
    level.groups.is_empty() && level.parts.is_empty()
}

/// The offset after the blocks of entries without groups and data.
fn pass_blocks(dim: Dim, bytes: &[u8]) -> Option<usize>
    requires at { dim.after ≤ length bytes.now }
    ensures told { result ≡ steps_behind (bytes_behind dim.block bytes.now) dim.count dim.after }
    ensures within { IfSome result (λ next. next ≤ length bytes.now) }
{
    let size = dim.count as usize * dim.block as usize;
    if bytes.len() - dim.after < size {
        return None;
    }
    Some(dim.after + size)
}

/// The offset after data parts.
fn pass_parts(
    order: Order,
    version: u32,
    rows: &[PartRow],
    bytes: &[u8],
    at: usize,
) -> Option<usize>
    requires small { AllByRecursion (λ r. IsSmall r.length.prim) rows.now }
    requires at { at ≤ length bytes.now }
    ensures told { result ≡ parts_behind order version rows.now bytes.now at }
    ensures within { IfSome result (λ next. next ≤ length bytes.now) }
{
    let mut at = at;
    for i in 0..rows.len() {
        match pass_part(order, version, &rows[i], bytes, at) {
            Some(next) => at = next,
            None => return None,
        }
    }
    Some(at)
}

/// The offset after a data part.
fn pass_part(order: Order, version: u32, part: &PartRow, bytes: &[u8], at: usize) -> Option<usize>
    requires small { IsSmall part.now.length.prim }
    requires at { at ≤ length bytes.now }
    ensures told { result ≡ part_behind order version part.now bytes.now at }
    ensures within { IfSome result (λ next. next ≤ length bytes.now) }
{
    if part.since > version {
        return Some(at);
    }
    match read_data_of(order, &part.length, bytes, at) {
        Ok(range) => Some(range.1),
        Err(_) => None,
    }
}
