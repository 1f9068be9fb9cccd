// The row of a part, and the steps of a path.
ghost use Rattle.std.specs.Prelude.{◌≡◌, ◌≤◌, ◌<◌, ℕ, drop, length, map, slice_get, take, None, Some};
ghost use Rattle.sbe_types.specs.declared.schema.Level.{Level};
ghost use Rattle.bridge_terms.specs.Parts.{TagLists};
ghost use Rattle.bridge_terms.specs.Plans.{Plan};
ghost use Rattle.message_walk.specs.Rows.{size_of, AreRows};
ghost use Rattle.message_walk.specs.Ways.{way_of};
ghost use Rattle.way_texts.specs.WayTexts.{first_entry, first_part, FromPart};

use message_walk::{Part, PlanRow, PutValue, WayStep};

/// The rows from the one with this tag on; none if the level has no such row.
pub(crate) fn rows_from<R: PutValue>(rows: &[PlanRow<R>], tag: u32) -> &[PlanRow<R>]
    ensures { (lists : TagLists) (p : Plan) (level : Level) → AreRows R.spells lists p rows.now → FromPart R.spells lists p tag level result.now }
{
    let mut left = rows;
    'rows: while left.len() > 0 {
        let row = first(left);
        if row.lead.tag() == tag {
            return left;
        }
        left = after_own(rest_from(left, 1), &row.part);
    }
    left
}

/// The rows after those of a group's entries.
fn after_own<'a, R>(rest: &'a [PlanRow<R>], part: &Part<R>) -> &'a [PlanRow<R>]
    ensures group { (size : ℕ) → size_of part.now ≡ Some size → size ≤ length rest.now → result.now ≡ drop size rest.now }
    ensures slot { size_of part.now ≡ None → result.now ≡ rest.now }
    ensures fewer { length result.now ≤ length rest.now }
{
    match part {
        Part::Field(_) => rest,
        Part::Data(_) => rest,
        Part::Group(size) => {
            if *size > rest.len() {
                return rest;
            }
            rest_from(rest, *size)
        }
    }
}

/// The rows of a group's entries, of which there are `size`.
pub(crate) fn own_rows<R>(rest: &[R], size: usize) -> &[R]
    ensures { size ≤ length rest.now → result.now ≡ take size rest.now }
{
    if size > rest.len() {
        return rest;
    }
    &rest[..size]
}

/// The first row.
#[inline(always)]
pub(crate) fn first<R>(rows: &[R]) -> &R
    requires { 0 < length rows.now }
    ensures { slice_get rows.now 0 ≡ Some result.now }
{
    &rows[0]
}

/// The rows from row `n` on.
#[inline(always)]
#[tactic(auto, using(std::proofs::lemmas::List::take_rest))]
pub(crate) fn rest_from<R>(rows: &[R], n: usize) -> &[R]
    requires { n ≤ length rows.now }
    ensures { result.now ≡ drop n rows.now }
{
    &rows[n..]
}

// ---- steps

/// The tag of the part that a path begins with.
pub(crate) fn first_part(way: &[WayStep]) -> Option<u32>
    ensures { result ≡ first_part (map way_of way.now) }
{
    match way.first() {
        Some(WayStep::Part(tag)) => Some(*tag),
        Some(WayStep::Entry(_)) => None,
        None => None,
    }
}

/// The number of the entry that a path begins with.
pub(crate) fn first_entry(way: &[WayStep]) -> Option<usize>
    ensures { result ≡ first_entry (map way_of way.now) }
{
    match way.first() {
        Some(WayStep::Entry(i)) => Some(*i),
        Some(WayStep::Part(_)) => None,
        None => None,
    }
}

/// A path after its first step.
pub(crate) fn after_first(way: &[WayStep]) -> &[WayStep]
    ensures steps { map way_of result.now ≡ drop 1 (map way_of way.now) }
    ensures shorter { 0 < length way.now → length result.now < length way.now }
{
    if way.is_empty() {
        return way;
    }
    &way[1..]
}
