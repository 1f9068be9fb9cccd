ghost use Rattle.std.specs.Prelude.{◌≡◌, ◌≤◌, ◌+◌, true, length, codes, slice_get, IfSome, Some};
ghost use Rattle.std.specs.List.{All};
ghost use Rattle.byte_digits.specs.Digits.{IsBytes};
ghost use Rattle.sbe_types.specs.declared.schema.DataField.{DataField};
ghost use Rattle.sbe_types.specs.declared.schema.Group.{Group, out-Group};
ghost use Rattle.sbe_types.specs.declared.schema.Level.{out-Level};
ghost use Rattle.sbe_types.specs.Places.{members_end};
ghost use Rattle.writing_laws.specs.Writable.{HasNamed, IsWritablePart};
ghost use Rattle.schema_facts.specs.Levels.{level_at};
ghost use Rattle.clean_bodies.specs.Bodies.{IsCanonicalOf, IsCanonicalRoot};
ghost use Rattle.clean_bodies.specs.Good.{IsGoodGroup, IsGoodLevel};
ghost use Rattle.clean_bodies.specs.Steps.{EntryStep, GroupStep, PartStep};
ghost use Rattle.clean_bodies.specs.Whole.{Chain, Times};
ghost use Rattle.clean_walk.specs.inner.Heads.{GroupSays};
ghost use Rattle.clean_walk.specs.inner.Places.{place_in};

use crate::blocks::is_clean_block;
use crate::heads::{count_in, end_said};
use crate::places::natural_at;
use crate::zeros::are_bytes;
use body_walk::first_child;
use layout_tables::Layout;
use sbe_types::{DataField, Group, Level, Order};
use sbe_wire::Counters;

/// Whether a body is the canonical one of the message that lies in it, if that has this template and the schema's own
/// version. Doesn't check that a message lies there. `false` is inconclusive.
pub fn is_clean_body(layout: &Layout, template: usize, body: &[u8]) -> bool
    ensures { result ≡ true → IsCanonicalOf layout.now template body.now }
{
    are_bytes(body);
    let schema = layout.schema();
    let levels = schema.messages.as_slice();
    if template >= levels.len() {
        return false;
    }
    is_clean_root(layout, layout.root(template), &levels[template], body)
}

/// The same for the root of a message, which is the level with this number.
fn is_clean_root(layout: &Layout, n: usize, level: &Level, body: &[u8]) -> bool
    requires level { level_at layout.now n ≡ Some level.now }
    requires good { IsGoodLevel layout.now.version level.now }
    requires header { HasNamed layout.now.header.members (codes "blockLength") }
    requires bytes { IsBytes body.now }
    ensures { result ≡ true → IsCanonicalRoot layout.now level.now body.now }
{
    let members = layout.header().members.as_slice();
    let numbers = Counters::Header {
        block: level.block_length,
        template: level.id,
        schema: layout.id(),
        version: layout.version(),
    };
    let Some(size) = end_said(layout.order(), members, numbers, body) else {
        return false;
    };
    match entry_end(layout, n, level, body, size) {
        Some(_) => true,
        None => false,
    }
}

/// The end of an entry that begins at an offset of the body, if its bytes are clean.
#[inline(always)]
#[cycle(walk)]
fn entry_end(layout: &Layout, n: usize, level: &Level, body: &[u8], at: usize) -> Option<usize>
    requires level { level_at layout.now n ≡ Some level.now }
    requires good { IsGoodLevel layout.now.version level.now }
    requires bytes { IsBytes body.now }
    requires at { at ≤ length body.now }
    ensures whole { IfSome result (EntryStep (place_in layout.now body.now) level.now at) }
    ensures within { IfSome result (λ next. next ≤ length body.now) }
{
    let row = layout.row(n);
    let size = row.block as usize;
    if body.len() - at < size {
        return None;
    }
    let after = at + size;
    if !is_clean_block(&row.flat, &body[at..after]) {
        return None;
    }
    let parts = level.parts.as_slice();
    if level.groups.as_slice().is_empty() && parts.is_empty() {
        return Some(after);
    }
    let next = groups_end(layout, n, level, body, after)?;
    parts_end(layout, parts, body, next)
}

/// The end of the groups of a level.
#[cycle(walk)]
fn groups_end(layout: &Layout, n: usize, level: &Level, body: &[u8], at: usize) -> Option<usize>
    requires level { level_at layout.now n ≡ Some level.now }
    requires good { IsGoodLevel layout.now.version level.now }
    requires bytes { IsBytes body.now }
    requires at { at ≤ length body.now }
    ensures whole { IfSome result (Chain Group (GroupStep (place_in layout.now body.now)) (out-Level level.now).groups at) }
    ensures within { IfSome result (λ next. next ≤ length body.now) }
{
    let groups = level.groups.as_slice();
    let mut child = first_child(layout, n);
    let mut next = at;
    for group in groups {
        match group_end(layout, child, group, body, next) {
            Some(end) => next = end,
            None => return None,
        }
        child = layout.row(child).end;
    }
    Some(next)
}

/// The end of a group, whose entries' level has this number.
#[cycle(walk)]
fn group_end(layout: &Layout, n: usize, group: &Group, body: &[u8], at: usize) -> Option<usize>
    requires level { level_at layout.now n ≡ Some (out-Group group.now).level }
    requires good { IsGoodGroup layout.now.version group.now }
    requires bytes { IsBytes body.now }
    requires at { at ≤ length body.now }
    ensures whole { IfSome result (GroupStep (place_in layout.now body.now) group.now at) }
    ensures within { IfSome result (λ next. next ≤ length body.now) }
{
    let (count, after) = dim_end(layout.order(), group, body, at)?;
    entries_end(layout, n, &group.level, count, body, after)
}

/// The end of `count` entries.
#[cycle(walk)]
fn entries_end(
    layout: &Layout,
    n: usize,
    level: &Level,
    count: u32,
    body: &[u8],
    at: usize,
) -> Option<usize>
    requires level { level_at layout.now n ≡ Some level.now }
    requires good { IsGoodLevel layout.now.version level.now }
    requires bytes { IsBytes body.now }
    requires at { at ≤ length body.now }
    ensures whole { IfSome result (Times (EntryStep (place_in layout.now body.now) level.now) count at) }
    ensures within { IfSome result (λ next. next ≤ length body.now) }
{
    let mut next = at;
    for done in 0..count {
        match entry_end(layout, n, level, body, next) {
            Some(end) => next = end,
            None => return None,
        }
    }
    Some(next)
}

/// The count in a dimension and the dimension's end, if it is the one that would be written for that count.
fn dim_end(order: Order, group: &Group, body: &[u8], at: usize) -> Option<(u32, usize)>
    requires { at ≤ length body.now }
    ensures says { IfSome result (λ d. GroupSays order body.now group.now d.0 at) }
    ensures end { IfSome result (λ d. d.1 ≡ at + members_end 0 (out-Group group.now).dim) }
    ensures within { IfSome result (λ d. d.1 ≤ length body.now) }
{
    let members = group.dim.as_slice();
    let rest = &body[at..];
    let count = count_in(order, members, rest)?;
    let numbers = Counters::Dimension {
        block: group.level.block_length,
        count,
    };
    let size = end_said(order, members, numbers, rest)?;
    Some((count, at + size))
}

/// The end of data parts.
fn parts_end(layout: &Layout, parts: &[DataField], body: &[u8], at: usize) -> Option<usize>
    requires good { All (IsWritablePart layout.now.version) parts.now }
    requires bytes { IsBytes body.now }
    requires at { at ≤ length body.now }
    ensures whole { IfSome result (Chain DataField (PartStep (place_in layout.now body.now)) parts.now at) }
    ensures within { IfSome result (λ next. next ≤ length body.now) }
{
    let mut next = at;
    for part in parts {
        match part_end(layout, part, body, next) {
            Some(end) => next = end,
            None => return None,
        }
    }
    Some(next)
}

/// The end of a data part.
fn part_end(layout: &Layout, part: &DataField, body: &[u8], at: usize) -> Option<usize>
    requires good { IsWritablePart layout.now.version part.now }
    requires bytes { IsBytes body.now }
    requires at { at ≤ length body.now }
    ensures whole { IfSome result (PartStep (place_in layout.now body.now) part.now at) }
    ensures within { IfSome result (λ next. next ≤ length body.now) }
{
    let prim = part.length.prim;
    let size = prim.width();
    if body.len() - at < size {
        return None;
    }
    let start = at + size;
    let many = natural_at(layout.order(), prim, &body[at..start])?;
    if body.len() - start < many as usize {
        return None;
    }
    Some(start + many as usize)
}
