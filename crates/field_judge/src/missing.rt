// Checks parts in the order of the structure.
ghost use Rattle.std.specs.Prelude.{◌≡◌, ◌≤◌, ◌<◌, ◌==◌, ℕ, List, Option, None, IfOk, false, get_or, length, replicate, slice_get, Some};
ghost use Rattle.std.specs.Option.{option_map};
ghost use Rattle.bridge_terms.specs.Parts.{pieces_of};
ghost use Rattle.bridge_terms.specs.Plans.{Plan, Repeat, Slot};
ghost use Rattle.bridge_terms.specs.WayBack.{first, group_missing, slot_missing, Refusal};
ghost use Rattle.tagvalue_codec.specs.Fields.{Field};
ghost use Rattle.text_values.specs.Rows.{Reads};
ghost use Rattle.field_judge.specs.Fields.{fields_of};
ghost use Rattle.field_judge.specs.Heads.{head_missing, located, piece_missing, placed, slot_head, AreLocated, Head, IsHeadRow};
ghost use Rattle.field_judge.specs.Levels.{IsLevel, IsNumbered};
ghost use Rattle.field_judge.specs.Refusals.{refusal_of};
ghost use Rattle.field_judge.specs.declared.field.AppField.{AppField as AnyField};
ghost use Rattle.field_judge.specs.declared.level.BackLevel.{BackLevel as AnyLevel};

use crate::field::AppField;
use crate::level::{BackGroup, BackLevel, BackPart, BackRow, place_in};
use crate::pieces::piece_len;
use crate::refused::Refused;
use crate::runs::{owned_len, run_len};
use crate::slices::{field_at, front, level_at, rest_from};
use lists::NoMem;
use std::alloc::Global;
use text_values::TextValue;

/// The first part, in the order of the structure, that must have a field and has none, by a level of the structure and
/// those of its groups.
///
/// # Errors
///
/// If memory runs out.
#[cycle(missing)]
pub fn missing_field(
    alloc: Global,
    levels: &[BackLevel],
    level: &BackLevel,
    fields: &[AppField<'_>],
) -> Result<Option<Refused>, NoMem>
    ensures { IfOk result (λ told. (p : Plan) → IsLevel levels.now p level.now → IsNumbered p
        → option_map refusal_of told ≡ piece_missing p (fields_of fields.now)) }
{
    let places = part_places(alloc, level, fields)?;
    for i in 0..level.rows.len() {
        let row = level.rows.at(i);
        if let Some(refused) = missing_row(
            alloc,
            levels,
            row,
            place_at(places.as_slice(), i),
            fields,
        )? {
            return Ok(Some(refused));
        }
    }
    Ok(None)
}

/// What a row lacks. `place` is the position after its first field, or 0 if there is none.
#[cycle(missing)]
fn missing_row(
    alloc: Global,
    levels: &[BackLevel],
    row: &BackRow,
    place: usize,
    fields: &[AppField<'_>],
) -> Result<Option<Refused>, NoMem>
    requires within { place ≤ length fields.now }
    ensures { IfOk result (λ told. (h : Head) → IsHeadRow levels.now h row.now
        → option_map refusal_of told ≡ head_missing h (located h fields.now place)) }
{
    match &row.part {
        BackPart::Value(value) => Ok(missing_value(value, row.tag, place)),
        BackPart::Group(group) => {
            if place == 0 {
                return Ok(missing_count(group, row.tag));
            }
            let rest = rest_from(fields, place);
            let many = owned_len(&group.owned, rest);
            missing_pieces(alloc, levels, group, front(rest, many))
        }
    }
}

/// What is missing in the first piece that lacks something.
#[cycle(missing)]
fn missing_pieces(
    alloc: Global,
    levels: &[BackLevel],
    group: &BackGroup,
    run: &[AppField<'_>],
) -> Result<Option<Refused>, NoMem>
    ensures { IfOk result (λ told. (inner : Plan) (own : AnyLevel) → slice_get levels.now group.now.level ≡ Some own → IsLevel levels.now inner own
        → IsNumbered inner → option_map refusal_of told ≡ first (piece_missing inner) (pieces_of group.now.delimiter (fields_of run.now)).pieces) }
{
    let Some(own) = level_at(levels, group.level) else {
        return Ok(None);
    };
    let mut left = rest_from(run, piece_len(group.delimiter, run));
    'pieces: while left.len() > 0 {
        let many = 1 + piece_len(group.delimiter, rest_from(left, 1));
        if let Some(refused) = missing_field(alloc, levels, own, front(left, many))? {
            return Ok(Some(refused));
        }
        left = rest_from(left, many);
    }
    Ok(None)
}

/// What a field or data lacks.
fn missing_value(value: &TextValue, tag: u32, place: usize) -> Option<Refused>
    ensures { (s : Slot) (fields : List AnyField) → Reads value.now s.rule → tag ≡ s.tag
        → option_map refusal_of result ≡ slot_missing s.tag s.rule (located (slot_head s) fields place) }
{
    if place > 0 {
        return None;
    }
    match value.missing() {
        Some(_) => None,
        None => Some(Refused::Missing(tag)),
    }
}

/// What a group without a field lacks.
fn missing_count(group: &BackGroup, tag: u32) -> Option<Refused>
    ensures { (g : Repeat) (piece : List Field → Option Refusal) → group.now.count ≡ g.count → tag ≡ g.tag
        → option_map refusal_of result ≡ group_missing g piece None }
{
    if group.count.admits(0) {
        return None;
    }
    Some(Refused::Missing(tag))
}

/// For each row of a level the number of the first field with its tag plus one, or 0 if there is none.
///
/// # Errors
///
/// If memory runs out.
pub fn part_places(
    alloc: Global,
    level: &BackLevel,
    fields: &[AppField<'_>],
) -> Result<Vec<usize>, NoMem>
    ensures size { IfOk result (λ places. length places.items ≡ length level.now.rows) }
    ensures within { IfOk result (λ places. (i : ℕ) → get_or places.items i 0 ≤ length fields.now) }
    ensures located { IfOk result (λ places. (levels : List AnyLevel) (p : Plan) → IsLevel levels p level.now → IsNumbered p
        → AreLocated p places.items fields.now) }
{
    let mut places = no_places(alloc, level.rows.len())?;
    let mut i = 0;
    'fields: while i < fields.len() {
        let after = rest_from(fields, i + 1);
        match place_in(level, field_at(fields, i).tag) {
            None => i += 1,
            Some(place) => {
                place_first(&mut places, place, i + 1);
                i += 1 + run_len(level.rows.at(place), after);
            }
        }
    }
    Ok(places)
}

/// Keeps the place of a part, or sets it if there is none.
fn place_first(places: &mut Vec<usize>, k: usize, place: usize)
    requires { k < length places.old.items }
    ensures own { get_or places.new.items k 0 ≡ placed (get_or places.old.items k 0) place }
    ensures others { (j : ℕ) → (j == k) ≡ false → get_or places.new.items j 0 ≡ get_or places.old.items j 0 }
    ensures size { length places.new.items ≡ length places.old.items }
{
    if place_at(places.as_slice(), k) == 0 {
        places[k] = place;
    }
}

/// A place.
fn place_at(places: &[usize], k: usize) -> usize
    requires { k < length places.now }
    ensures { result ≡ get_or places.now k 0 }
{
    places[k]
}

/// `n` places, none of them set.
fn no_places(alloc: Global, n: usize) -> Result<Vec<usize>, NoMem>
    ensures { IfOk result (λ places. places.items ≡ replicate n 0) }
{
    Ok(vec![in alloc; 0; n]?)
}
