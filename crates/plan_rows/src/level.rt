// The rows of a level.
ghost use Rattle.std.specs.Prelude.{◌≡◌, ◌++◌, List, option_map, IfOk, IfSome, OnOk};
ghost use Rattle.reference_graph.specs.Expansion.{Structure};
ghost use Rattle.structure_rows.specs.Rows.{rows_of};
ghost use Rattle.structure_rows.specs.declared.row.PlaceRow.{PlaceRow as AnyPlace};
ghost use Rattle.level_places.specs.Places.{FirstPlace};
ghost use Rattle.message_walk.specs.Rows.{AreRows};
ghost use Rattle.bridge_plan.specs.Covers.{plan_of};
ghost use Rattle.bridge_plan.specs.Mappings.{Mapping};
ghost use Rattle.bridge_cover.specs.Kinds.{HasKindsInOrder};
ghost use Rattle.bridge_cover.specs.Tables.{AreTables};
ghost use Rattle.plan_rows.specs.Found.{found_rows, group_front, AreFront, Goes, HasIds};

use crate::found::Found;
use crate::groups::{begins_with_field, has_count, with_group};
use crate::ids::LevelIds;
use crate::row::RuleRow;
use crate::slots::slot_row;
use bridge_cover::Tables;
use level_places::first_place;
use lists::NoMem;
use message_walk::PlanRow;
use sbe_types::Level;
use std::alloc::Global;
use structure_rows::PlaceRow;

/// The rows of a level's plan, in the order of the places of a mapped structure. `None` if one of them can't be made;
/// this doesn't happen for a valid mapping that covers the template. Linear in the parts of the level and in the
/// places, apart from what a rule's codes take.
///
/// # Errors
///
/// If memory runs out.
#[cycle(rows)]
pub fn level_rows<R: RuleRow>(
    alloc: Global,
    tables: &Tables,
    places: &[PlaceRow],
    level: &Level,
) -> Result<Option<Vec<PlanRow<R>>>, NoMem>
    requires order { HasKindsInOrder level.now }
    ensures { IfOk result (λ made. IfSome made (λ rows. (m : Mapping) (s : Structure) → AreTables m tables.now → places.now ≡ rows_of s
        → AreRows R.follows_rule m.lists (plan_of m s level.now) rows.items)) }
{
    let ids = LevelIds::new(alloc, level)?;
    let mut rows = Vec::new(alloc);
    let mut left = places;
    'places: while let [row, rest @ ..] = left {
        let (own, after) = first_place(*row, rest);
        match place_rows(alloc, tables, &ids, level, row.tag, own)? {
            None => return Ok(None),
            Some(more) => put_rows(&mut rows, more)?,
        }
        left = after;
    }
    Ok(Some(rows))
}

fn put_rows<R: RuleRow>(rows: &mut Vec<PlanRow<R>>, more: Vec<PlanRow<R>>) -> Result<(), NoMem>
    ensures { OnOk result (rows.new.items ≡ rows.old.items ++ more.items) }
{
    let mut others = more;
    rows.append(&mut others)?;
    Ok(())
}

/// The rows of a place. It is a group's if it has the places of its entries.
#[cycle(rows)]
fn place_rows<R: RuleRow>(
    alloc: Global,
    tables: &Tables,
    ids: &LevelIds,
    level: &Level,
    tag: u32,
    own: Option<&[PlaceRow]>,
) -> Result<Option<Vec<PlanRow<R>>>, NoMem>
    requires order { HasKindsInOrder level.now }
    requires ids { HasIds level.now ids.now }
    ensures { IfOk result (λ made. IfSome made (λ rows. (m : Mapping) (s : Structure) (after : List AnyPlace) → AreTables m tables.now
        → FirstPlace s tag (option_map (λ places. places.now) own.entry) after
        → (more : Structure) × (after ≡ rows_of more) × Goes R.follows_rule m.lists (plan_of m s level.now) (plan_of m more level.now) rows.items)) }
{
    match own {
        None => single_row(alloc, slot_row(alloc, tables, ids, level, tag)?),
        Some(places) => group_rows(alloc, tables, ids, level, tag, places),
    }
}

/// The rows of the group whose count has this tag, if the level has one that a plan can have: its count is in its
/// dimension, and its entries begin with a field. `places` are those of its entries.
#[cycle(rows)]
#[tactic(auto, using(crate::proofs::Finding::group_order))]
fn group_rows<R: RuleRow>(
    alloc: Global,
    tables: &Tables,
    ids: &LevelIds,
    level: &Level,
    tag: u32,
    places: &[PlaceRow],
) -> Result<Option<Vec<PlanRow<R>>>, NoMem>
    requires order { HasKindsInOrder level.now }
    requires ids { HasIds level.now ids.now }
    ensures { IfOk result (λ made. IfSome made (λ rows. (m : Mapping) (inner : Structure) → AreTables m tables.now → places.now ≡ rows_of inner
        → AreFront R.follows_rule m.lists (group_front m tag inner level.now) rows.items)) }
{
    let Some(i) = ids.groups.place(tag) else {
        return Ok(Some(Vec::new(alloc)));
    };
    let group = level.groups.at(i);
    if !begins_with_field(places) {
        return Ok(Some(Vec::new(alloc)));
    }
    if !has_count(group.dim.as_slice()) {
        return Ok(Some(Vec::new(alloc)));
    }
    match level_rows(alloc, tables, places, &group.level)? {
        None => Ok(None),
        Some(entries) => with_group(alloc, &tables.tags, tag, i, entries),
    }
}

/// The row of a field or data, if there is one.
fn single_row<R: RuleRow>(alloc: Global, found: Found<R>) -> Result<Option<Vec<PlanRow<R>>>, NoMem>
    ensures { IfOk result (λ made. option_map (λ rows. rows.items) made ≡ found_rows found) }
{
    let mut rows = Vec::new(alloc);
    match found {
        Found::Nothing => Ok(Some(rows)),
        Found::Row(row) => {
            rows.push(row)?;
            Ok(Some(rows))
        }
        Found::Unmade => Ok(None),
    }
}
