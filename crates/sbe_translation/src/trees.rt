// The levels of the templates that a mapping covers.
ghost use Rattle.std.specs.Prelude.{◌≡◌, Some, IfOk};
ghost use Rattle.map_types.specs.Trees.{members_of};
ghost use Rattle.orchestra_map.specs.Headers.{IsKept};
ghost use Rattle.reference_graph.specs.Expansion.{Structure};
ghost use Rattle.sbe_types.specs.declared.schema.Level.{out-Level};
ghost use Rattle.structure_rows.specs.Rows.{rows_of};
ghost use Rattle.bridge_plan.specs.CheckedLevels.{HasShortCodes, IsCovered};
ghost use Rattle.bridge_plan.specs.Mappings.{structure_for, Mapping};
ghost use Rattle.bridge_mapping.specs.Mapped.{mapping_of};
ghost use Rattle.bridge_mapping.specs.Tables.{structures_in};
ghost use Rattle.bridge_cover.specs.Kinds.{HasKindsInOrder};
ghost use Rattle.bridge_cover.specs.Tables.{AreTables};
ghost use Rattle.message_plans.specs.Plans.{ArePlans, IsCover};
ghost use Rattle.sbe_translation.specs.Plans.{AreTrees, CoversAll, HasDistinct, IsAny, IsTreeOf};

use crate::numbered::has_no_zero;
use crate::plan::Covered;
use back_levels::{BackTree, back_levels};
use bridge_cover::Tables;
use bridge_mapping::MessageTable;
use lists::{List, NoMem};
use map_types::Repository;
use message_plans::{Cover, Plan};
use sbe_types::Level;
use schema_check::Checked;
use std::alloc::Global;
use structure_rows::PlaceRow;

/// The levels of each template that the mapping covers, by the plans of the templates.
pub(crate) fn trees_of(
    alloc: Global,
    tables: &Tables,
    checked: &Checked,
    repository: &Repository,
    plan: &Plan<Covered>,
) -> Result<List<Option<BackTree>>, NoMem>
    requires kept { IsKept repository.now }
    requires short { HasShortCodes (mapping_of (members_of repository.now)) }
    requires plans { ArePlans IsAny (mapping_of (members_of repository.now)) checked.now.messages plan.now }
    ensures { IfOk result (λ trees. AreTables (mapping_of (members_of repository.now)) tables.now
        → AreTrees (mapping_of (members_of repository.now)) checked.now.messages trees) }
{
    let messages = MessageTable::new(alloc, repository)?;
    trees_by(alloc, tables, &messages, checked, plan)
}

/// The same, by the structures of the mapping's messages.
fn trees_by(
    alloc: Global,
    tables: &Tables,
    messages: &MessageTable,
    checked: &Checked,
    plan: &Plan<Covered>,
) -> Result<List<Option<BackTree>>, NoMem>
    requires planned { (m : Mapping) × ArePlans IsAny m checked.now.messages plan.now }
    ensures { IfOk result (λ trees. (m : Mapping) → AreTables m tables.now → m.messages ≡ structures_in messages.now → HasShortCodes m → HasDistinct m
        → ArePlans IsAny m checked.now.messages plan.now → AreTrees m checked.now.messages trees) }
{
    let levels = &checked.schema().messages;
    let mut trees = List::new(alloc);
    for i in 0..levels.len() {
        let tree = tree_of(alloc, tables, messages, plan.cover(i), levels.at(i))?;
        trees.push(tree)?;
    }
    Ok(trees)
}

/// The levels of a template, if the mapping covers it.
fn tree_of(
    alloc: Global,
    tables: &Tables,
    messages: &MessageTable,
    cover: &Cover<Covered>,
    level: &Level,
) -> Result<Option<BackTree>, NoMem>
    requires order { HasKindsInOrder level.now }
    ensures { IfOk result (λ tree. (m : Mapping) → AreTables m tables.now → m.messages ≡ structures_in messages.now
        → IsCover IsAny m level.now cover.now → CoversAll m level.now → IsTreeOf m level.now tree) }
{
    match cover {
        Cover::NoMessage => Ok(None),
        Cover::Unmapped(_) => Ok(None),
        Cover::Mapped(_) => mapped_tree(alloc, tables, messages, level),
    }
}

/// The levels of a template that the mapping covers.
fn mapped_tree(
    alloc: Global,
    tables: &Tables,
    messages: &MessageTable,
    level: &Level,
) -> Result<Option<BackTree>, NoMem>
    requires order { HasKindsInOrder level.now }
    ensures { IfOk result (λ tree. (m : Mapping) (s : Structure) → AreTables m tables.now → m.messages ≡ structures_in messages.now
        → structure_for m (out-Level level.now).semantic ≡ Some s → IsCovered m s level.now → IsTreeOf m level.now tree) }
{
    let Some(places) = messages.rows(alloc, level.semantic.as_slice())? else {
        return Ok(None);
    };
    tree_by(alloc, tables, places.as_slice(), level)
}

/// The same, by the places of its message.
fn tree_by(
    alloc: Global,
    tables: &Tables,
    places: &[PlaceRow],
    level: &Level,
) -> Result<Option<BackTree>, NoMem>
    requires order { HasKindsInOrder level.now }
    ensures { IfOk result (λ tree. (m : Mapping) (s : Structure) → AreTables m tables.now → places.now ≡ rows_of s
        → structure_for m (out-Level level.now).semantic ≡ Some s → IsCovered m s level.now → IsTreeOf m level.now tree) }
{
    let Some(tree) = back_levels(alloc, tables, places, level)? else {
        return Err(NoMem);
    };
    if !has_no_zero(&tree) {
        return Err(NoMem);
    }
    Ok(Some(tree))
}
