// The first difference between the data of two levels.
ghost use Rattle.std.specs.Prelude.{◌≡◌, IfOk};
ghost use Rattle.version_laws.specs.Differ.{data_reason};
ghost use Rattle.version_project.specs.Paired.{parts_compare};

use crate::differ::found::at_part;
use crate::differ::leaves::{is_same_leaf, is_same_name};
use lists::{List, NoMem};
use sbe_types::DataField;
use std::alloc::Global;
use version_laws::{Difference, Reason};

/// The first difference between old's data and those of new that are effective by old's version, in order.
pub(crate) fn parts_differ(
    alloc: Global,
    version: u32,
    olds: &List<DataField>,
    news: &List<DataField>,
) -> Result<Option<Difference>, NoMem>
    ensures { IfOk result (λ found. found ≡ parts_compare version olds.now news.now) }
{
    let mut i = 0usize;
    for new in news.as_slice() {
        if new.since <= version {
            if i >= olds.len() {
                return at_part(alloc, &new.name, Reason::Part);
            }
            let old = olds.at(i);
            if let Some(reason) = reason_of(old, new) {
                return at_part(alloc, &old.name, reason);
            }
            i += 1;
        }
    }
    if i < olds.len() {
        return at_part(alloc, &olds.at(i).name, Reason::Part);
    }
    Ok(None)
}

/// Why a data part of new differs from that of old.
fn reason_of(old: &DataField, new: &DataField) -> Option<Reason>
    ensures { result ≡ data_reason old.now new.now }
{
    if !is_same_name(old.name.as_slice(), new.name.as_slice()) {
        return Some(Reason::Part);
    }
    if old.since != new.since {
        return Some(Reason::Since);
    }
    if !is_same_leaf(&old.length, &new.length) {
        return Some(Reason::Kind);
    }
    None
}
