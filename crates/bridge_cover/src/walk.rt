ghost use Rattle.std.specs.Prelude.{◌≡◌, ◌∷◌, ◌++◌, [], ℕ, List, reverse, IfOk};
ghost use Rattle.std.specs.List.{All};
ghost use Rattle.sbe_types.specs.declared.schema.Level.{out-Level};
ghost use Rattle.reference_graph.specs.Expansion.{Structure};
ghost use Rattle.structure_rows.specs.Rows.{rows_of};
ghost use Rattle.bridge_plan.specs.Mappings.{Mapping};
ghost use Rattle.bridge_plan.specs.Covers.{data_uncovered, group_uncovered, uncovered};
ghost use Rattle.bridge_cover.specs.Kinds.{GroupHasKinds, HasKindsInOrder};
ghost use Rattle.bridge_cover.specs.Parts.{groups_left, outermost_first, Sees};
ghost use Rattle.bridge_cover.specs.Tables.{AreTables};

use crate::level::LevelMap;
use crate::tables::Tables;
use lists::{List, NoMem, Text};
use sbe_types::{DataField, Group, Level};
use std::alloc::Global;
use structure_rows::PlaceRow;

/// The path of the first part of a template that a mapping doesn't cover, outermost name first. The rows are those of
/// the structure of the template's message.
///
/// # Errors
///
/// If memory runs out.
pub fn uncovered(
    alloc: Global,
    tables: &Tables,
    rows: &[PlaceRow],
    level: &Level,
) -> Result<Option<List<Text>>, NoMem>
    requires order { HasKindsInOrder level.now }
    ensures { IfOk result (λ path. (m : Mapping) (s : Structure) → AreTables m tables.now → rows.now ≡ rows_of s
        → path ≡ uncovered m s level.now) }
{
    match level_uncovered(alloc, tables, rows, level)? {
        None => Ok(None),
        Some(path) => Ok(Some(reversed(alloc, path)?)),
    }
}

/// The names in reverse order.
fn reversed(alloc: Global, path: List<Text>) -> Result<List<Text>, NoMem>
    ensures { IfOk result (λ names. names ≡ reverse path) }
{
    let mut left = path.into_vec();
    let mut names = List::new(alloc);
    'names: while let Some(name) = left.pop() {
        names.push(name)?;
    }
    Ok(names)
}

/// The same with the innermost name first, so that each level around the part appends its own.
#[cycle(walk)]
fn level_uncovered(
    alloc: Global,
    tables: &Tables,
    rows: &[PlaceRow],
    level: &Level,
) -> Result<Option<List<Text>>, NoMem>
    requires order { HasKindsInOrder level.now }
    ensures { IfOk result (λ path. (m : Mapping) (s : Structure) → AreTables m tables.now → rows.now ≡ rows_of s
        → outermost_first path ≡ uncovered m s level.now) }
{
    let mut here = LevelMap::new(alloc, &*tables, &*rows)?;
    parts_uncovered(alloc, &mut here, level)
}

/// The same, given the state before the level's first part.
#[cycle(walk)]
fn parts_uncovered(
    alloc: Global,
    here: &mut LevelMap,
    level: &Level,
) -> Result<Option<List<Text>>, NoMem>
    requires order { HasKindsInOrder level.now }
    ensures { IfOk result (λ path. (m : Mapping) (s : Structure) → Sees m s [] here.old → outermost_first path ≡ uncovered m s level.now) }
{
    let fields = level.fields.as_slice();
    for field in fields {
        let covered = here.covers_field(alloc, field)?;
        if !covered {
            return Ok(Some(path_to(alloc, field.name.as_slice())?));
        }
        here.pass(field.id)?;
    }
    let groups = groups_of(level);
    let parts = level.parts.as_slice();
    groups_uncovered(alloc, here, groups, parts)
}

/// The groups of a level.
fn groups_of(level: &Level) -> &[Group]
    requires { HasKindsInOrder level.now }
    ensures groups { result.now ≡ (out-Level level.now).groups }
    ensures order { All GroupHasKinds result.now }
{
    level.groups.as_slice()
}

/// The first of these groups and data that isn't covered, or the first part in one of the groups.
#[cycle(walk)]
fn groups_uncovered(
    alloc: Global,
    here: &mut LevelMap,
    groups: &[Group],
    parts: &[DataField],
) -> Result<Option<List<Text>>, NoMem>
    requires order { All GroupHasKinds groups.now }
    ensures { IfOk result (λ path. (m : Mapping) (s : Structure) (before : List ℕ) → Sees m s before here.old
        → outermost_first path ≡ groups_left m s before groups.now parts.now) }
{
    for group in groups {
        if let Some(path) = group_uncovered(alloc, here, group)? {
            return Ok(Some(path));
        }
        here.pass(group.level.id)?;
    }
    data_uncovered(alloc, here, parts)
}

/// The group itself, if it isn't covered, or the first part in it that isn't.
#[cycle(walk)]
fn group_uncovered(
    alloc: Global,
    here: &LevelMap,
    group: &Group,
) -> Result<Option<List<Text>>, NoMem>
    requires order { GroupHasKinds group.now }
    ensures { IfOk result (λ path. (m : Mapping) (s : Structure) (before : List ℕ) → Sees m s before here.now
        → outermost_first path ≡ group_uncovered m s before group.now) }
{
    let name = group.level.name.as_slice();
    let Some(rows) = here.entries(&group.level) else {
        return Ok(Some(path_to(alloc, name)?));
    };
    match level_uncovered(alloc, here.tables, rows, &group.level)? {
        None => Ok(None),
        Some(path) => Ok(Some(inside(alloc, path, name)?)),
    }
}

/// The first data that isn't covered.
fn data_uncovered(
    alloc: Global,
    here: &mut LevelMap,
    parts: &[DataField],
) -> Result<Option<List<Text>>, NoMem>
    ensures { IfOk result (λ path. (m : Mapping) (s : Structure) (before : List ℕ) → Sees m s before here.old
        → outermost_first path ≡ data_uncovered m s before parts.now) }
{
    for part in parts {
        if !here.covers_data(part) {
            return Ok(Some(path_to(alloc, part.name.as_slice())?));
        }
        here.pass(part.id)?;
    }
    Ok(None)
}

/// The path to a part of this level.
fn path_to(alloc: Global, name: &[u8]) -> Result<List<Text>, NoMem>
    ensures { IfOk result (λ path. path ≡ name.now ∷ []) }
{
    inside(alloc, List::new(alloc), name)
}

/// A path inside a named part.
fn inside(alloc: Global, path: List<Text>, name: &[u8]) -> Result<List<Text>, NoMem>
    ensures { IfOk result (λ names. names ≡ path ++ name.now ∷ []) }
{
    let mut names = path;
    names.push(List::from_slice(alloc, name)?)?;
    Ok(names)
}
