// The first difference between the fields of two levels.
ghost use Rattle.std.specs.Prelude.{◌≡◌, IfOk};
ghost use Rattle.schema_facts.specs.Measured.{IsNarrow, AreNarrowFields};
ghost use Rattle.version_laws.specs.Differ.{no_fields, field_stays, field_reason, fields_differ};
ghost use Rattle.version_project.specs.Pairwise.{ends_at};

use crate::differ::found::at_part;
use crate::differ::kinds::is_same_kind;
use crate::differ::leaves::is_same_name;
use crate::differ::places::{are_same_places, is_same_place};
use flat_rows::{begin_of, end_after};
use lists::{List, NoMem};
use sbe_types::Field;
use std::alloc::Global;
use version_laws::{Difference, Reason};

/// The first difference between old's fields and those of new that are effective by old's version, in order.
pub(crate) fn fields_differ(
    alloc: Global,
    version: u32,
    more: bool,
    olds: &List<Field>,
    news: &List<Field>,
) -> Result<Option<Difference>, NoMem>
    requires old { AreNarrowFields 0 olds.now }
    requires new { AreNarrowFields 0 news.now }
    ensures { IfOk result (λ found. found ≡ fields_differ version more no_fields olds.now news.now) }
{
    let mut i = 0usize;
    let mut end = 0;
    let mut other_end = 0;
    for j in 0..news.len() {
        let new = news.at(j);
        if new.since <= version {
            if i >= olds.len() {
                return at_part(alloc, &new.name, Reason::Part);
            }
            let old = olds.at(i);
            if let Some(reason) = reason_of(more, end, old, other_end, new) {
                return at_part(alloc, &old.name, reason);
            }
            end = end_after(end, old.offset, &old.kind);
            i += 1;
        }
        other_end = end_after(other_end, new.offset, &new.kind);
    }
    if i < olds.len() {
        return at_part(alloc, &olds.at(i).name, Reason::Part);
    }
    Ok(None)
}

/// Why a field of new differs from that of old, given the ends of the fields before them.
fn reason_of(more: bool, end: u32, old: &Field, other_end: u32, new: &Field) -> Option<Reason>
    requires old { IsNarrow old.now.kind }
    requires new { IsNarrow new.now.kind }
    ensures { result ≡ field_reason more (ends_at end other_end) old.now new.now }
{
    if !is_same_name(old.name.as_slice(), new.name.as_slice()) {
        return Some(Reason::Part);
    }
    if old.since != new.since {
        return Some(Reason::Since);
    }
    if !does_stay(end, old, other_end, new) {
        return Some(Reason::Place);
    }
    if !is_same_kind(more, &old.kind, &new.kind) {
        return Some(Reason::Kind);
    }
    None
}

/// Whether two fields have the same offset, and so do the members of their composites.
fn does_stay(end: u32, old: &Field, other_end: u32, new: &Field) -> bool
    requires old { IsNarrow old.now.kind }
    requires new { IsNarrow new.now.kind }
    ensures { result ≡ field_stays (ends_at end other_end) old.now new.now }
{
    is_same_place(
        &old.kind,
        begin_of(end, old.offset),
        &new.kind,
        begin_of(other_end, new.offset),
    ) && are_same_places(&old.kind, &new.kind)
}
