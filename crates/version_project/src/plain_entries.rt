ghost use Rattle.std.specs.Prelude.{◌≡◌};
ghost use Rattle.std.specs.List.{list_all};
ghost use Rattle.version_project.specs.IsPlain.{all_pairs, part_is_plain, entry_is_plain, group_is_plain};

use lists::List;
use sbe_types::{Block, DataField, DataVal, Group, GroupVal, Level};

pub(crate) fn plain_part(version: u32, part: &DataField, value: &DataVal) -> bool
    ensures { result ≡ part_is_plain version part.now value.now }
{
    if part.since <= version {
        return true;
    }
    match value {
        DataVal::Absent => true,
        DataVal::Bytes(_) => false,
    }
}

fn plain_parts(version: u32, parts: &List<DataField>, values: &List<DataVal>) -> bool
    ensures { result ≡ all_pairs (part_is_plain version) parts.now values.now }
{
    for (i, part) in parts.as_slice().iter().enumerate() {
        if i >= values.len() {
            return true;
        }
        if !plain_part(version, part, values.at(i)) {
            return false;
        }
    }
    true
}

/// Whether an entry contains no part that the version doesn't know.
#[cycle(plain)]
fn plain_entry(version: u32, level: &Level, block: &Block) -> bool
    ensures { result ≡ entry_is_plain version level.now block.now }
{
    plain_groups(version, &level.groups, &block.groups)
        && plain_parts(version, &level.parts, &block.parts)
}

#[cycle(plain)]
fn plain_groups(version: u32, groups: &List<Group>, values: &List<GroupVal>) -> bool
    ensures { result ≡ all_pairs (group_is_plain version) groups.now values.now }
{
    for (i, group) in groups.as_slice().iter().enumerate() {
        if i >= values.len() {
            return true;
        }
        if !plain_group(version, group, values.at(i)) {
            return false;
        }
    }
    true
}

#[cycle(plain)]
pub(crate) fn plain_group(version: u32, group: &Group, value: &GroupVal) -> bool
    ensures { result ≡ group_is_plain version group.now value.now }
{
    match value {
        GroupVal::Absent => true,
        GroupVal::Entries(entries) => {
            if group.level.since <= version {
                plain_entries(version, &group.level, entries)
            } else {
                false
            }
        }
    }
}

#[cycle(plain)]
fn plain_entries(version: u32, level: &Level, entries: &List<Block>) -> bool
    ensures { result ≡ list_all (entry_is_plain version level.now) entries.now }
{
    for entry in entries.as_slice() {
        if !plain_entry(version, level, entry) {
            return false;
        }
    }
    true
}
