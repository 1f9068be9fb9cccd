// Blocks, their groups and the entries of these.
ghost use Rattle.std.specs.Prelude.{◌≡◌, ◌≤◌, ℕ, List, length, get_or, slice_get, IfOk, Some};
ghost use Rattle.sbe_types.specs.declared.message.Value.{Value as AnyValue};
ghost use Rattle.bridge_terms.specs.Gathering.{each, values_of_fields};
ghost use Rattle.bridge_terms.specs.Parts.{pieces_of};
ghost use Rattle.bridge_terms.specs.Plans.{Each, Plan, Repeat, Tree};
ghost use Rattle.bridge_terms.specs.Blocks.{AreHeld};
ghost use Rattle.field_judge.specs.Fields.{fields_of};
ghost use Rattle.field_judge.specs.Heads.{group_head, heads, located};
ghost use Rattle.field_judge.specs.Levels.{IsGroupRow, IsLevel, IsNumbered};
ghost use Rattle.field_judge.specs.declared.level.BackRow.{BackRow as AnyRow};
ghost use Rattle.field_blocks.specs.Blocks.{AreEntries, HasEntriesOf, IsBlockOf};
ghost use Rattle.field_blocks.specs.Found.{entries_found, parts_in, run_found, AreFound, HoldsGroups, IsGroupLevel, IsGroupOf};
ghost use Rattle.field_blocks.specs.Wired.{IsWired};

use crate::fields::{data_values, field_values};
use crate::reading::row_of;
use field_judge::{
    AppField, BackGroup, BackLevel, BackPart, front, level_at, owned_len, part_places, piece_len,
    rest_from,
};
use lists::{List, NoMem};
use sbe_types::{Block, Group, GroupList, GroupVal, GroupValList, Level};
use std::alloc::Global;

/// The block to which fields that aren't refused are translated: the values of a level's fields, groups and data, by the
/// level of the structure and those of its groups. Linear in the fields and in the parts of their levels.
///
/// # Errors
///
/// If memory runs out.
#[cycle(blocks)]
pub fn block_of_fields(
    alloc: Global,
    levels: &[BackLevel],
    back: &BackLevel,
    level: &Level,
    fields: &[AppField<'_>],
) -> Result<Block, NoMem>
    ensures { IfOk result (λ block. (p : Plan) (t : Tree AnyValue p) → IsLevel levels.now p back.now → IsNumbered p → IsWired level.now p
        → AreHeld p t → values_of_fields p (fields_of fields.now) ≡ Some t → IsBlockOf level.now p t block) }
{
    let found = part_places(alloc, back, fields)?;
    let places = found.as_slice();
    let own = field_values(alloc, back, &level.fields, places, fields)?;
    let parts = data_values(alloc, back, &level.parts, places, fields)?;
    let groups = group_values(alloc, levels, back, &level.groups, places, fields)?;
    Ok(Block {
        fields: own,
        groups,
        parts,
    })
}

/// The groups of a level.
#[cycle(blocks)]
fn group_values(
    alloc: Global,
    levels: &[BackLevel],
    back: &BackLevel,
    own: &GroupList,
    places: &[usize],
    fields: &[AppField<'_>],
) -> Result<GroupValList, NoMem>
    requires many { length places.now ≡ length back.now.rows }
    requires within { (k : ℕ) → get_or places.now k 0 ≤ length fields.now }
    ensures size { IfOk result (λ values. length values ≡ length own.now) }
    ensures held { IfOk result (λ values. (p : Plan) → AreFound levels.now p back.now places.now fields.now
        → HoldsGroups p (parts_in p fields.now) own.now values) }
{
    let mut values = List::new(alloc);
    for i in 0..own.len() {
        let value = group_value(alloc, levels, back, own.at(i), places, fields)?;
        values.push(value)?;
    }
    Ok(values)
}

/// A group of a level.
#[cycle(blocks)]
fn group_value(
    alloc: Global,
    levels: &[BackLevel],
    back: &BackLevel,
    group: &Group,
    places: &[usize],
    fields: &[AppField<'_>],
) -> Result<GroupVal, NoMem>
    requires many { length places.now ≡ length back.now.rows }
    requires within { (k : ℕ) → get_or places.now k 0 ≤ length fields.now }
    ensures { IfOk result (λ value. (p : Plan) (k : ℕ) (g : Repeat) (inner : Plan) (es : List (Tree AnyValue inner))
        → AreFound levels.now p back.now places.now fields.now → slice_get (heads p) k ≡ Some (group_head g inner) → IsGroupOf g inner group.now
        → Each (AreHeld inner) es → entries_found g inner (parts_in p fields.now) ≡ Some es → HasEntriesOf g inner es value) }
{
    let Some(found) = row_of(back, group.level.id, places) else {
        return Ok(GroupVal::Absent);
    };
    match &found.row.part {
        BackPart::Value(_) => Ok(GroupVal::Absent),
        BackPart::Group(own) => Ok(GroupVal::Entries(group_entries(
            alloc,
            levels,
            own,
            &group.level,
            found.place,
            fields,
        )?)),
    }
}

/// The entries of a group whose count field precedes a place; none if the place is 0.
#[cycle(blocks)]
fn group_entries(
    alloc: Global,
    levels: &[BackLevel],
    own: &BackGroup,
    level: &Level,
    place: usize,
    fields: &[AppField<'_>],
) -> Result<List<Block>, NoMem>
    requires within { place ≤ length fields.now }
    ensures { IfOk result (λ entries. (g : Repeat) (inner : Plan) (r : AnyRow) (es : List (Tree AnyValue inner)) → IsGroupRow g own.now r
        → IsGroupLevel levels.now own.now inner → IsWired level.now inner → Each (AreHeld inner) es
        → run_found g inner (located (group_head g inner) fields.now place) ≡ Some es → AreEntries level.now inner es entries) }
{
    if place == 0 {
        return Ok(List::new(alloc));
    }
    let rest = rest_from(fields, place);
    let many = owned_len(&own.owned, rest);
    entries_of(alloc, levels, own, level, front(rest, many))
}

/// The entries of a run of fields.
#[cycle(blocks)]
fn entries_of(
    alloc: Global,
    levels: &[BackLevel],
    group: &BackGroup,
    level: &Level,
    run: &[AppField<'_>],
) -> Result<List<Block>, NoMem>
    ensures { IfOk result (λ entries. (inner : Plan) (es : List (Tree AnyValue inner)) → IsGroupLevel levels.now group.now inner → IsWired level.now inner
        → Each (AreHeld inner) es
        → each (values_of_fields inner) (pieces_of group.now.delimiter (fields_of run.now)).pieces ≡ Some es → AreEntries level.now inner es entries) }
{
    let mut entries = List::new(alloc);
    let Some(own) = level_at(levels, group.level) else {
        return Ok(entries);
    };
    let begin = piece_len(group.delimiter, run);
    let first = rest_from(run, begin);
    let mut left = first;
    'pieces: while left.len() > 0 {
        let many = 1 + piece_len(group.delimiter, rest_from(left, 1));
        let block = block_of_fields(alloc, levels, own, level, front(left, many))?;
        entries.push(block)?;
        left = rest_from(left, many);
    }
    Ok(entries)
}
