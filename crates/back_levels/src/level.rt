// The levels of a structure.
ghost use Rattle.std.specs.Prelude.{◌≡◌, List, ◌++◌, map, option_map, IfOk, IfSome, OnOk};
ghost use Rattle.reference_graph.specs.Expansion.{Structure};
ghost use Rattle.structure_rows.specs.Rows.{rows_of};
ghost use Rattle.structure_rows.specs.declared.row.PlaceRow.{PlaceRow as AnyPlace};
ghost use Rattle.level_places.specs.Places.{FirstPlace};
ghost use Rattle.bridge_plan.specs.Covers.{plan_of};
ghost use Rattle.bridge_plan.specs.Mappings.{Mapping};
ghost use Rattle.bridge_cover.specs.Kinds.{HasKindsInOrder};
ghost use Rattle.bridge_cover.specs.Tables.{AreTables};
ghost use Rattle.field_judge.specs.Levels.{IsLevel};
ghost use Rattle.plan_rows.specs.Found.{group_front, HasIds};
ghost use Rattle.back_levels.specs.Found.{found_rows, is_made, AreFront, AreKept, GoesFound};

use crate::found::Found;
use crate::groups::{count_of, delimiter_of, tags_of};
use crate::slots::slot_row;
use bridge_cover::Tables;
use field_judge::{BackGroup, BackLevel, BackPart, BackRow};
use id_tables::IdTable;
use level_places::first_place;
use lists::{List, NoMem};
use plan_rows::LevelIds;
use sbe_types::Level;
use std::alloc::Global;
use structure_rows::PlaceRow;

/// The levels of a template: that of its root, and those of the entries of all its groups.
#[derive(Drop)]
pub struct BackTree {
    pub root: BackLevel,
    pub levels: Vec<BackLevel>,
}

/// The levels of a template's plan, by the places of a mapped structure. `None` if a row can't be made; this doesn't
/// happen for a valid mapping. Linear in the parts of the levels and in the places, apart from what a rule's codes take.
///
/// # Errors
///
/// If memory runs out.
pub fn back_levels(
    alloc: Global,
    tables: &Tables,
    places: &[PlaceRow],
    level: &Level,
) -> Result<Option<BackTree>, NoMem>
    requires order { HasKindsInOrder level.now }
    ensures { IfOk result (λ made. IfSome made (λ tree. (m : Mapping) (s : Structure) → AreTables m tables.now → places.now ≡ rows_of s
        → IsLevel tree.levels.items (plan_of m s level.now) tree.root)) }
{
    let mut levels = Vec::new(alloc);
    match level_of(alloc, tables, places, level, &mut levels)? {
        None => Ok(None),
        Some(root) => Ok(Some(BackTree { root, levels })),
    }
}

/// A level. The levels of its groups are added after those that are there.
#[cycle(levels)]
fn level_of(
    alloc: Global,
    tables: &Tables,
    places: &[PlaceRow],
    level: &Level,
    levels: &mut Vec<BackLevel>,
) -> Result<Option<BackLevel>, NoMem>
    requires order { HasKindsInOrder level.now }
    ensures kept { OnOk result (AreKept levels.old.items levels.new.items) }
    ensures level { IfOk result (λ made. IfSome made (λ own. (m : Mapping) (s : Structure) → AreTables m tables.now → places.now ≡ rows_of s
        → IsLevel levels.new.items (plan_of m s level.now) own)) }
{
    let ids = LevelIds::new(alloc, level)?;
    level_by(alloc, tables, &ids, places, level, levels)
}

/// The same, given the tables of the level's ids.
#[cycle(levels)]
fn level_by(
    alloc: Global,
    tables: &Tables,
    ids: &LevelIds,
    places: &[PlaceRow],
    level: &Level,
    levels: &mut Vec<BackLevel>,
) -> Result<Option<BackLevel>, NoMem>
    requires order { HasKindsInOrder level.now }
    requires ids { HasIds level.now ids.now }
    ensures kept { OnOk result (AreKept levels.old.items levels.new.items) }
    ensures level { IfOk result (λ made. IfSome made (λ own. (m : Mapping) (s : Structure) → AreTables m tables.now → places.now ≡ rows_of s
        → IsLevel levels.new.items (plan_of m s level.now) own)) }
{
    let mut rows = List::new(alloc);
    let mut left = places;
    'places: while let [row, rest @ ..] = left {
        let (own, after) = first_place(*row, rest);
        let found = place_row(alloc, tables, ids, level, row.tag, own, levels)?;
        if !put_found(&mut rows, found)? {
            return Ok(None);
        }
        left = after;
    }
    Ok(Some(BackLevel {
        tags: tags_of_rows(alloc, rows.as_slice())?,
        rows,
    }))
}

/// Adds a row that was found after others. `false` if it can't be made.
fn put_found(rows: &mut List<BackRow>, found: Found) -> Result<bool, NoMem>
    ensures rows { OnOk result (rows.new ≡ rows.old ++ found_rows found) }
    ensures made { IfOk result (λ made. made ≡ is_made found) }
{
    match found {
        Found::Nothing => Ok(true),
        Found::Row(row) => {
            rows.push(row)?;
            Ok(true)
        }
        Found::Unmade => Ok(false),
    }
}

/// The tags of rows.
fn tags_of_rows(alloc: Global, rows: &[BackRow]) -> Result<IdTable, NoMem>
    ensures { IfOk result (λ tags. tags ≡ map (λ row. row.tag) rows.now) }
{
    let mut tags = List::new(alloc);
    for row in rows {
        tags.push(row.tag)?;
    }
    IdTable::new(alloc, tags)
}

/// The row of a place. It is a group's if it has the places of its entries.
#[cycle(levels)]
fn place_row(
    alloc: Global,
    tables: &Tables,
    ids: &LevelIds,
    level: &Level,
    tag: u32,
    own: Option<&[PlaceRow]>,
    levels: &mut Vec<BackLevel>,
) -> Result<Found, NoMem>
    requires order { HasKindsInOrder level.now }
    requires ids { HasIds level.now ids.now }
    ensures kept { OnOk result (AreKept levels.old.items levels.new.items) }
    ensures goes { IfOk result (λ found. (m : Mapping) (s : Structure) (after : List AnyPlace) → AreTables m tables.now
        → FirstPlace s tag (option_map (λ places. places.now) own.entry) after
        → (more : Structure) × (after ≡ rows_of more) × GoesFound levels.new.items (plan_of m s level.now) (plan_of m more level.now) found) }
{
    match own {
        None => slot_row(alloc, tables, ids, level, tag),
        Some(places) => group_row(alloc, tables, ids, level, tag, places, levels),
    }
}

/// The row of the group whose count has this tag, if the level has one that a plan can have: its count is in its
/// dimension, and its entries begin with a field. `places` are those of its entries.
#[cycle(levels)]
fn group_row(
    alloc: Global,
    tables: &Tables,
    ids: &LevelIds,
    level: &Level,
    tag: u32,
    places: &[PlaceRow],
    levels: &mut Vec<BackLevel>,
) -> Result<Found, NoMem>
    requires order { HasKindsInOrder level.now }
    requires ids { HasIds level.now ids.now }
    ensures kept { OnOk result (AreKept levels.old.items levels.new.items) }
    ensures front { IfOk result (λ found. (m : Mapping) (inner : Structure) → AreTables m tables.now → places.now ≡ rows_of inner
        → AreFront levels.new.items (group_front m tag inner level.now) found) }
{
    let Some(i) = ids.groups.place(tag) else {
        return Ok(Found::Nothing);
    };
    let group = level.groups.at(i);
    let Some(delimiter) = delimiter_of(places) else {
        return Ok(Found::Nothing);
    };
    let Some(count) = count_of(group.dim.as_slice()) else {
        return Ok(Found::Nothing);
    };
    let Some(own) = level_of(alloc, tables, places, &group.level, levels)? else {
        return Ok(Found::Unmade);
    };
    let number = levels.len();
    levels.push(own)?;
    let owned = tags_of(alloc, places)?;
    Ok(Found::Row(BackRow {
        tag,
        part: BackPart::Group(BackGroup {
            delimiter,
            count,
            owned,
            level: number,
        }),
    }))
}
