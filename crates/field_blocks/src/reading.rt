// The values read from the fields of a level.
ghost use Rattle.std.specs.Prelude.{◌≡◌, ◌≤◌, ◌<◌, ℕ, List, length, get_or, slice_get, IfSome, MatchOption, Some};
ghost use Rattle.std.specs.Option.{option_map};
ghost use Rattle.bridge_rules.specs.Members.{and_then, text_in};
ghost use Rattle.bridge_rules.specs.Rules.{Rule};
ghost use Rattle.bridge_terms.specs.Gathering.{text_at, value_found};
ghost use Rattle.bridge_terms.specs.Plans.{Plan, Slot};
ghost use Rattle.text_values.specs.Read.{value_of_read};
ghost use Rattle.text_values.specs.Rows.{Reads};
ghost use Rattle.field_judge.specs.Heads.{head_tag, heads, located, slot_head, Head, IsHeadRow};
ghost use Rattle.field_judge.specs.declared.level.BackLevel.{BackLevel as AnyLevel};
ghost use Rattle.field_blocks.specs.Found.{parts_in, AreFound, AreRowsOf};

use field_judge::{AppField, BackLevel, BackPart, BackRow, field_at, place_in};
use text_values::{ReadValue, TextValue};

/// The value read for the field or data with this id, given the places of the first fields of a level's rows.
pub(crate) fn read_slot<'a>(
    back: &BackLevel,
    id: u32,
    places: &[usize],
    fields: &[AppField<'a>],
) -> Option<ReadValue<'a>>
    requires many { length places.now ≡ length back.now.rows }
    requires within { (k : ℕ) → get_or places.now k 0 ≤ length fields.now }
    ensures { (levels : List AnyLevel) (p : Plan) (k : ℕ) (s : Slot) → AreFound levels p back.now places.now fields.now
        → slice_get (heads p) k ≡ Some (slot_head s) → id ≡ s.tag
        → value_found s.rule (text_at s.tag (parts_in p fields.now)) ≡ option_map value_of_read result }
{
    let Some(found) = row_of(back, id, places) else {
        return None;
    };
    match &found.row.part {
        BackPart::Value(value) => read_value(value, text_before(fields, found.place)),
        BackPart::Group(_) => None,
    }
}

/// A row of a level, and the place of its first field.
#[derive(Clone, Copy)]
pub(crate) struct PlacedRow<'b> {
    pub row: &'b BackRow,
    pub place: usize,
}

/// The row with this id.
pub(crate) fn row_of<'b>(back: &'b BackLevel, id: u32, places: &[usize]) -> Option<PlacedRow<'b>>
    requires many { length places.now ≡ length back.now.rows }
    ensures row { (levels : List AnyLevel) (p : Plan) (k : ℕ) (h : Head) → AreRowsOf levels p back.now
        → slice_get (heads p) k ≡ Some h → id ≡ head_tag h
        → MatchOption result ⊥ (λ found. IsHeadRow levels h found.row.now × (found.place ≡ get_or places.now k 0)) }
    ensures place { IfSome result (λ found. (k : ℕ) × (found.place ≡ get_or places.now k 0)) }
{
    match place_in(back, id) {
        None => None,
        Some(k) => Some(PlacedRow {
            row: back.rows.at(k),
            place: place_at(places, k),
        }),
    }
}

/// The place of row `k`.
fn place_at(places: &[usize], k: usize) -> usize
    requires { k < length places.now }
    ensures { result ≡ get_or places.now k 0 }
{
    places[k]
}

/// The text of the field before a place; none if the place is 0.
fn text_before<'a>(fields: &[AppField<'a>], place: usize) -> Option<&'a [u8]>
    requires { place ≤ length fields.now }
    ensures { (h : Head) → option_map (λ text. text.now) result ≡ and_then (located h fields.now place) (λ x. Some x.text) }
{
    if place == 0 {
        return None;
    }
    Some(field_at(fields, place - 1).text)
}

/// The value read from a text, or that of a part without a field.
fn read_value<'a>(value: &TextValue, text: Option<&'a [u8]>) -> Option<ReadValue<'a>>
    ensures { (rule : Rule) → Reads value.now rule
        → value_found rule (option_map (λ t. t.now) text.entry) ≡ option_map value_of_read result }
{
    match text {
        None => value.missing(),
        Some(text) => match value.read(text) {
            Ok(read) => Some(read),
            Err(_) => None,
        },
    }
}

/// The bytes of a text that was read.
#[tactic(auto, using(crate::proofs::Rows::number_text))]
pub(crate) fn bytes_of<'a>(read: ReadValue<'a>) -> Option<&'a [u8]>
    ensures { option_map (λ t. t.now) result ≡ text_in (value_of_read read.entry) }
{
    match read {
        ReadValue::Text(text) => Some(text),
        ReadValue::Number(_) => None,
        ReadValue::Listed(_) => None,
        ReadValue::Choices(_) => None,
        ReadValue::Scaled(_) => None,
        ReadValue::Pair(_, _) => None,
        ReadValue::Month(_, _, _, _) => None,
        ReadValue::Constant => None,
    }
}
