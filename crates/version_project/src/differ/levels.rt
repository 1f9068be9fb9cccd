// The first difference between two levels: their fields, groups and data.
ghost use Rattle.std.specs.Prelude.{◌≡◌, IfOk};
ghost use Rattle.std.specs.List.{AllByRecursion};
ghost use Rattle.version_laws.specs.Differ.{level_differs, group_reason};
ghost use Rattle.version_project.specs.Narrow.{IsNarrowLevel, IsNarrowGroup};
ghost use Rattle.version_project.specs.Paired.{group_compare, groups_compare};

use crate::differ::data::parts_differ;
use crate::differ::fields::fields_differ;
use crate::differ::found::{at_part, inside};
use crate::differ::kinds::is_same_dimension;
use crate::differ::leaves::is_same_name;
use lists::{List, NoMem};
use sbe_types::{Group, Level};
use std::alloc::Global;
use version_laws::{Difference, Reason};

/// The first difference between a level of old and one of new.
#[cycle(levels)]
pub(crate) fn level_differs(
    alloc: Global,
    version: u32,
    more: bool,
    old: &Level,
    new: &Level,
) -> Result<Option<Difference>, NoMem>
    requires old { IsNarrowLevel old.now }
    requires new { IsNarrowLevel new.now }
    ensures { IfOk result (λ found. found ≡ level_differs version more old.now new.now) }
{
    if let Some(found) = fields_differ(alloc, version, more, &old.fields, &new.fields)? {
        return Ok(Some(found));
    }
    if let Some(found) = groups_differ(alloc, version, more, &old.groups, &new.groups)? {
        return Ok(Some(found));
    }
    parts_differ(alloc, version, &old.parts, &new.parts)
}

/// The first difference between old's groups and those of new that are effective by old's version, in order.
#[cycle(levels)]
fn groups_differ(
    alloc: Global,
    version: u32,
    more: bool,
    olds: &List<Group>,
    news: &List<Group>,
) -> Result<Option<Difference>, NoMem>
    requires old { AllByRecursion IsNarrowGroup olds.now }
    requires new { AllByRecursion IsNarrowGroup news.now }
    ensures { IfOk result (λ found. found ≡ groups_compare version more olds.now news.now) }
{
    let mut i = 0usize;
    for new in news.as_slice() {
        if new.level.since <= version {
            if i >= olds.len() {
                return at_part(alloc, &new.level.name, Reason::Part);
            }
            let old = olds.at(i);
            if let Some(found) = group_differs(alloc, version, more, old, new)? {
                return Ok(Some(found));
            }
            i += 1;
        }
    }
    if i < olds.len() {
        return at_part(alloc, &olds.at(i).level.name, Reason::Part);
    }
    Ok(None)
}

/// The first difference between a group of old and one of new: in the groups themselves, or in their entries.
#[cycle(levels)]
fn group_differs(
    alloc: Global,
    version: u32,
    more: bool,
    old: &Group,
    new: &Group,
) -> Result<Option<Difference>, NoMem>
    requires old { IsNarrowGroup old.now }
    requires new { IsNarrowGroup new.now }
    ensures { IfOk result (λ found. found ≡ group_compare version more old.now new.now) }
{
    if let Some(reason) = reason_of(old, new) {
        return at_part(alloc, &old.level.name, reason);
    }
    match level_differs(alloc, version, more, &old.level, &new.level)? {
        None => Ok(None),
        Some(found) => {
            let outer = inside(alloc, &old.level.name, &found)?;
            Ok(Some(outer))
        }
    }
}

/// Why a group of new differs from that of old.
fn reason_of(old: &Group, new: &Group) -> Option<Reason>
    ensures { result ≡ group_reason old.now new.now }
{
    if !is_same_name(old.level.name.as_slice(), new.level.name.as_slice()) {
        return Some(Reason::Part);
    }
    if old.level.since != new.level.since {
        return Some(Reason::Since);
    }
    if !is_same_dimension(&old.dim, &new.dim) {
        return Some(Reason::Kind);
    }
    None
}
