// The row of a field or data.
ghost use Rattle.std.specs.Prelude.{List, [], Some, IfOk};
ghost use Rattle.sbe_types.specs.declared.kind.Leaf.{Leaf};
ghost use Rattle.sbe_types.specs.declared.kind.Named.{Named as AnyNamed};
ghost use Rattle.sbe_types.specs.declared.schema.Level.{out-Level};
ghost use Rattle.schema_facts.specs.InOrder.{IsKindFrom};
ghost use Rattle.bridge_rules.specs.Rules.{raw_data, text_data};
ghost use Rattle.bridge_table.specs.Rows.{rule_with};
ghost use Rattle.bridge_terms.specs.Parts.{TagLists};
ghost use Rattle.bridge_plan.specs.Covers.{data_slot, field_slot, slot_of};
ghost use Rattle.bridge_plan.specs.Mappings.{Mapping};
ghost use Rattle.bridge_mapping.specs.Tables.{HaveSameTags};
ghost use Rattle.bridge_cover.specs.Kinds.{HasKindsInOrder};
ghost use Rattle.bridge_cover.specs.Tables.{AreTables};
ghost use Rattle.plan_rows.specs.Found.{data_slot_by, data_slot_with, field_slot_by, field_slot_with, HasIds, IsFound};

use crate::found::Found;
use crate::ids::LevelIds;
use crate::row::RuleRow;
use bridge_cover::Tables;
use bridge_mapping::TagTable;
use bridge_table::{FieldRule, data_rule, field_rule};
use lists::NoMem;
use message_walk::{Lead, Part, PlanRow};
use sbe_types::{DataField, Kind, Level};
use std::alloc::Global;

/// The row of the field or data with this tag, if the level has one.
pub(crate) fn slot_row<R: RuleRow>(
    alloc: Global,
    tables: &Tables,
    ids: &LevelIds,
    level: &Level,
    tag: u32,
) -> Result<Found<R>, NoMem>
    requires order { HasKindsInOrder level.now }
    requires ids { HasIds level.now ids.now }
    ensures { IfOk result (λ found. (m : Mapping) → AreTables m tables.now → IsFound R.follows_rule m.lists (slot_of m tag level.now) found) }
{
    match field_found(alloc, tables, ids, level, tag)? {
        Found::Nothing => Ok(data_found(tables, ids, level, tag)),
        Found::Row(row) => Ok(Found::Row(row)),
        Found::Unmade => Ok(Found::Unmade),
    }
}

fn field_found<R: RuleRow>(
    alloc: Global,
    tables: &Tables,
    ids: &LevelIds,
    level: &Level,
    tag: u32,
) -> Result<Found<R>, NoMem>
    requires order { HasKindsInOrder level.now }
    requires ids { HasIds level.now ids.now }
    ensures { IfOk result (λ found. (m : Mapping) → AreTables m tables.now
        → IsFound R.follows_rule m.lists (field_slot m tag 0 (out-Level level.now).fields) found) }
{
    match ids.fields.place(tag) {
        None => Ok(Found::Nothing),
        Some(i) => field_row(alloc, tables, tag, i, &level.fields.at(i).kind),
    }
}

/// The row of field `number`, if the table has a rule for it.
fn field_row<R: RuleRow>(
    alloc: Global,
    tables: &Tables,
    tag: u32,
    number: usize,
    kind: &Kind,
) -> Result<Found<R>, NoMem>
    requires order { IsKindFrom 1 kind.now }
    ensures { IfOk result (λ found. (m : Mapping) → AreTables m tables.now
        → IsFound R.follows_rule m.lists (field_slot_by m tag number kind.now) found) }
{
    match field_rule(alloc, kind, tables.datatypes.datatype(tag))? {
        None => Ok(Found::Nothing),
        Some(rule) => ruled_field(alloc, &tables.tags, tag, number, rule),
    }
}

/// The row of field `number`, given its rule. Its tag isn't that of data with a length field.
fn ruled_field<R: RuleRow>(
    alloc: Global,
    tags: &TagTable,
    tag: u32,
    number: usize,
    rule: FieldRule,
) -> Result<Found<R>, NoMem>
    ensures { IfOk result (λ found. (lists : TagLists) (names : List AnyNamed) → HaveSameTags tags.now lists
        → IsFound R.follows_rule lists (Some (field_slot_with tag number (rule_with names rule))) found) }
{
    if tags.length_of(tag).is_some() {
        return Ok(Found::Unmade);
    }
    let Some(lead) = Lead::new(tag) else {
        return Ok(Found::Unmade);
    };
    match R::of_rule(alloc, rule)? {
        None => Ok(Found::Unmade),
        Some(by) => Ok(Found::Row(PlanRow {
            lead,
            number,
            part: Part::Field(by),
        })),
    }
}

fn data_found<R: RuleRow>(tables: &Tables, ids: &LevelIds, level: &Level, tag: u32) -> Found<R>
    requires ids { HasIds level.now ids.now }
    ensures { (m : Mapping) → AreTables m tables.now → IsFound R.follows_rule m.lists (data_slot m tag 0 (out-Level level.now).parts) result }
{
    match ids.parts.place(tag) {
        None => Found::Nothing,
        Some(i) => data_row(tables, tag, i, level.parts.at(i)),
    }
}

/// The row of data `number`, if the table has a rule for it.
fn data_row<R: RuleRow>(tables: &Tables, tag: u32, number: usize, part: &DataField) -> Found<R>
    ensures { (m : Mapping) → AreTables m tables.now → IsFound R.follows_rule m.lists (data_slot_by m tag number part.now) result }
{
    match data_rule(part, tables.datatypes.datatype(tag)) {
        None => Found::Nothing,
        Some(rule) => ruled_data(&tables.tags, tag, number, &rule),
    }
}

/// The row of data `number`, given its rule.
fn ruled_data<R: RuleRow>(tags: &TagTable, tag: u32, number: usize, rule: &FieldRule) -> Found<R>
    ensures { (lists : TagLists) → HaveSameTags tags.now lists
        → IsFound R.follows_rule lists (Some (data_slot_with tag number (rule_with [] rule.now))) result }
{
    match rule {
        FieldRule::RawData(_) => raw_row(tags, tag, number),
        FieldRule::TextData(_) => passage_row(tags, tag, number),
        _ => Found::Unmade,
    }
}

/// The row of raw data, which has a length field.
fn raw_row<R: RuleRow>(tags: &TagTable, tag: u32, number: usize) -> Found<R>
    ensures { (lists : TagLists) (leaf : Leaf) → HaveSameTags tags.now lists
        → IsFound R.follows_rule lists (Some (data_slot_with tag number (raw_data leaf))) result }
{
    let Some(own) = tags.length_of(tag) else {
        return Found::Unmade;
    };
    let Some(length) = Lead::new(own) else {
        return Found::Unmade;
    };
    match Lead::new(tag) {
        None => Found::Unmade,
        Some(lead) => Found::Row(PlanRow {
            lead,
            number,
            part: Part::Data(Some(length)),
        }),
    }
}

/// The row of data that is a text, which has no length field.
fn passage_row<R: RuleRow>(tags: &TagTable, tag: u32, number: usize) -> Found<R>
    ensures { (lists : TagLists) (leaf : Leaf) → HaveSameTags tags.now lists
        → IsFound R.follows_rule lists (Some (data_slot_with tag number (text_data leaf))) result }
{
    if tags.length_of(tag).is_some() {
        return Found::Unmade;
    }
    match Lead::new(tag) {
        None => Found::Unmade,
        Some(lead) => Found::Row(PlanRow {
            lead,
            number,
            part: Part::Data(None),
        }),
    }
}
