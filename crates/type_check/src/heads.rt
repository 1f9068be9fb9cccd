ghost use Rattle.std.specs.Prelude.{◌≡◌, false, OnOk};
ghost use Rattle.schema_rules.specs.Judging.{Gives, first_of};
ghost use Rattle.schema_rules.specs.Names.{is_among};
ghost use Rattle.schema_rules.specs.PartRules.{rank, greatest_since, begins_wrong, part_rules};

use crate::name_table::NameTable;
use crate::refusals::refuse;
use schema_rules::{CCode, CheckErr, LevelFacts, LevelScope, PartClass, PartHead};
use std::alloc::Global;

/// Applies the rules for every part of a level.
pub fn judge_head(
    alloc: Global,
    level: LevelScope,
    names: &NameTable,
    all: LevelFacts,
    name: &[u8],
    head: PartHead,
) -> Result<(), CheckErr>
    ensures judged { Gives result (first_of (part_rules level (record { names = names.now; all = all }) name.now head)) }
    ensures new { OnOk result (is_among names.now name.now ≡ false) }
{
    if names.contains(name) {
        return refuse(alloc, CCode::DuplicateName);
    }
    if rank(head.class) < rank(all.last) {
        return refuse(alloc, CCode::Order);
    }
    if begins_wrong(level, all, head) {
        return refuse(alloc, CCode::Since);
    }
    Ok(())
}

fn rank(class: PartClass) -> u8
    ensures { result ≡ rank class }
{
    match class {
        PartClass::Field => 0,
        PartClass::Group => 1,
        PartClass::Data => 2,
    }
}

fn greatest_since(all: LevelFacts, class: PartClass) -> u32
    ensures { result ≡ greatest_since all class }
{
    match class {
        PartClass::Field => all.fields_since,
        PartClass::Group => all.groups_since,
        PartClass::Data => all.data_since,
    }
}

/// Whether a part begins at a version above the schema's, or before an earlier part of its class.
fn begins_wrong(level: LevelScope, all: LevelFacts, head: PartHead) -> bool
    ensures { result ≡ begins_wrong level all head }
{
    head.since > level.version
        || (!head.is_fixed && level.since.max(head.since) < greatest_since(all, head.class))
}
