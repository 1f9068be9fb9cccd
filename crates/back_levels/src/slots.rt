// The row of a field or data.
ghost use Rattle.std.specs.Prelude.{List, Some, IfOk};
ghost use Rattle.schema_facts.specs.InOrder.{IsKindFrom};
ghost use Rattle.sbe_types.specs.declared.kind.Named.{Named as AnyNamed};
ghost use Rattle.bridge_table.specs.Rows.{rule_with};
ghost use Rattle.bridge_terms.specs.Plans.{Place};
ghost use Rattle.sbe_types.specs.declared.schema.Level.{out-Level};
ghost use Rattle.bridge_plan.specs.Covers.{data_slot, field_slot, slot_of};
ghost use Rattle.bridge_plan.specs.Mappings.{Mapping};
ghost use Rattle.bridge_cover.specs.Kinds.{HasKindsInOrder};
ghost use Rattle.bridge_cover.specs.Tables.{AreTables};
ghost use Rattle.plan_rows.specs.Found.{data_slot_by, field_slot_by, HasIds};
ghost use Rattle.back_levels.specs.Found.{IsFound};

use crate::found::Found;
use bridge_cover::Tables;
use bridge_table::{FieldRule, data_rule, field_rule};
use field_judge::{BackPart, BackRow};
use lists::NoMem;
use plan_rows::LevelIds;
use sbe_types::{DataField, Kind, Level};
use std::alloc::Global;
use text_values::TextValue;

/// The row of the field or data with this tag, if the level has one.
pub(crate) fn slot_row(
    alloc: Global,
    tables: &Tables,
    ids: &LevelIds,
    level: &Level,
    tag: u32,
) -> Result<Found, NoMem>
    requires order { HasKindsInOrder level.now }
    requires ids { HasIds level.now ids.now }
    ensures { IfOk result (λ found. (m : Mapping) → AreTables m tables.now → IsFound (slot_of m tag level.now) found) }
{
    match field_found(alloc, tables, ids, level, tag)? {
        Found::Nothing => Ok(data_found(tables, ids, level, tag)),
        Found::Row(row) => Ok(Found::Row(row)),
        Found::Unmade => Ok(Found::Unmade),
    }
}

fn field_found(
    alloc: Global,
    tables: &Tables,
    ids: &LevelIds,
    level: &Level,
    tag: u32,
) -> Result<Found, NoMem>
    requires order { HasKindsInOrder level.now }
    requires ids { HasIds level.now ids.now }
    ensures { IfOk result (λ found. (m : Mapping) → AreTables m tables.now → IsFound (field_slot m tag 0 (out-Level level.now).fields) found) }
{
    match ids.fields.place(tag) {
        None => Ok(Found::Nothing),
        Some(i) => field_row(alloc, tables, tag, i, &level.fields.at(i).kind),
    }
}

/// The row of field `number`, if the table has a rule for it.
fn field_row(
    alloc: Global,
    tables: &Tables,
    tag: u32,
    number: usize,
    kind: &Kind,
) -> Result<Found, NoMem>
    requires order { IsKindFrom 1 kind.now }
    ensures { IfOk result (λ found. (m : Mapping) → AreTables m tables.now → IsFound (field_slot_by m tag number kind.now) found) }
{
    let _number = number;
    match field_rule(alloc, kind, tables.datatypes.datatype(tag))? {
        None => Ok(Found::Nothing),
        Some(rule) => Ok(ruled(tag, rule)),
    }
}

fn data_found(tables: &Tables, ids: &LevelIds, level: &Level, tag: u32) -> Found
    requires ids { HasIds level.now ids.now }
    ensures { (m : Mapping) → AreTables m tables.now → IsFound (data_slot m tag 0 (out-Level level.now).parts) result }
{
    match ids.parts.place(tag) {
        None => Found::Nothing,
        Some(i) => data_row(tables, tag, i, level.parts.at(i)),
    }
}

/// The row of data `number`, if the table has a rule for it.
fn data_row(tables: &Tables, tag: u32, number: usize, part: &DataField) -> Found
    ensures { (m : Mapping) → AreTables m tables.now → IsFound (data_slot_by m tag number part.now) result }
{
    let _number = number;
    match data_rule(part, tables.datatypes.datatype(tag)) {
        None => Found::Nothing,
        Some(rule) => ruled(tag, rule),
    }
}

/// The row of a field or data, given its rule.
fn ruled(tag: u32, rule: FieldRule) -> Found
    ensures { (place : Place) (names : List AnyNamed) → IsFound (Some (record { tag = tag; place = place; rule = rule_with names rule })) result }
{
    match TextValue::new(rule) {
        None => Found::Unmade,
        Some(value) => Found::Row(BackRow {
            tag,
            part: BackPart::Value(value),
        }),
    }
}
