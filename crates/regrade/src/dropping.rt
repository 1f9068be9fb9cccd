//! How many parts of a message an earlier version of its schema lacks.

ghost use Rattle.std.specs.Prelude.{◌≡◌, ◌<◌, ◌^◌};
ghost use Rattle.sbe_types.specs.declared.message.Block.{out-Block};
ghost use Rattle.sbe_types.specs.declared.schema.Level.{out-Level};
ghost use Rattle.schema_facts.specs.Counted.{total};
ghost use Rattle.regrade.specs.Each.{dropped_here};
ghost use Rattle.regrade_laws.specs.Counts.{count_pairs, dropped_count, dropped_group_count, drops_field, drops_part, one_if, sum_pairs};

use crate::values::is_absent;
use lists::List;
use sbe_types::{Block, DataField, DataVal, Field, Group, GroupVal, Kind, Level, Value};

/// Whether a field is dropped: constants and absent fields aren't.
fn drops_field(version: u32, field: &Field, value: &Value) -> bool
    ensures { result ≡ drops_field version field.now value.now }
{
    if field.since <= version {
        return false;
    }
    match &field.kind {
        Kind::Const(_) => false,
        Kind::Leaf(_) | Kind::Enum(_, _) | Kind::Set(_, _) | Kind::Comp(_) => !is_absent(value),
    }
}

/// Whether a data part is dropped.
fn drops_part(version: u32, part: &DataField, value: &DataVal) -> bool
    ensures { result ≡ drops_part version part.now value.now }
{
    if part.since <= version {
        return false;
    }
    match value {
        DataVal::Absent => false,
        DataVal::Bytes(_) => true,
    }
}

/// 1 if the test holds, otherwise 0.
fn one_if(test: bool) -> u64
    ensures { result ≡ one_if test }
{
    if test { 1 } else { 0 }
}

/// How many fields are dropped.
fn dropped_fields(version: u32, fields: &List<Field>, values: &List<Value>) -> u64
    requires { count_pairs (drops_field version) fields.now values.now < 2 ^ 64 }
    ensures { result ≡ count_pairs (drops_field version) fields.now values.now }
{
    let mut dropped = 0;
    for i in 0..fields.len() {
        if i >= values.len() {
            return dropped;
        }
        dropped += one_if(drops_field(version, fields.at(i), values.at(i)));
    }
    dropped
}

/// How many data parts are dropped.
fn dropped_parts(version: u32, parts: &List<DataField>, values: &List<DataVal>) -> u64
    requires { count_pairs (drops_part version) parts.now values.now < 2 ^ 64 }
    ensures { result ≡ count_pairs (drops_part version) parts.now values.now }
{
    let mut dropped = 0;
    for i in 0..parts.len() {
        if i >= values.len() {
            return dropped;
        }
        dropped += one_if(drops_part(version, parts.at(i), values.at(i)));
    }
    dropped
}

/// How many parts are dropped in the groups of a level; a group that is dropped counts once.
#[cycle(drop_parts)]
fn dropped_groups(version: u32, level: &Level, block: &Block) -> u64
    requires { sum_pairs (dropped_here version) (out-Level level.now).groups (out-Block block.now).groups < 2 ^ 64 }
    ensures { result ≡ sum_pairs (dropped_here version) (out-Level level.now).groups (out-Block block.now).groups }
{
    let mut dropped = 0;
    for i in 0..level.groups.len() {
        if i >= block.groups.len() {
            return dropped;
        }
        dropped += dropped_group(version, level.groups.at(i), block.groups.at(i));
    }
    dropped
}

/// How many parts are dropped in a group, or 1 if the group itself is.
#[cycle(drop_parts)]
fn dropped_group(version: u32, group: &Group, value: &GroupVal) -> u64
    requires { dropped_here version group.now value.now < 2 ^ 64 }
    ensures { result ≡ dropped_here version group.now value.now }
{
    match value {
        GroupVal::Absent => 0,
        GroupVal::Entries(entries) => {
            if group.level.since <= version {
                dropped_entries(version, &group.level, entries)
            } else {
                1
            }
        }
    }
}

/// How many parts are dropped in the entries of a group.
#[cycle(drop_parts)]
fn dropped_entries(version: u32, level: &Level, entries: &List<Block>) -> u64
    requires { total (dropped_count version level.now) entries.now < 2 ^ 64 }
    ensures { result ≡ total (dropped_count version level.now) entries.now }
{
    let mut dropped = 0;
    for i in 0..entries.len() {
        dropped += dropped_in(version, level, entries.at(i));
    }
    dropped
}

/// How many parts of a block are present that the earlier version lacks, except for constants.
#[cycle(drop_parts)]
pub(crate) fn dropped_in(version: u32, level: &Level, block: &Block) -> u64
    requires { dropped_count version level.now block.now < 2 ^ 64 }
    ensures { result ≡ dropped_count version level.now block.now }
{
    let fields = dropped_fields(version, &level.fields, &block.fields);
    let groups = dropped_groups(version, level, block);
    let parts = dropped_parts(version, &level.parts, &block.parts);
    fields + groups + parts
}
