// Data at a place of a line, taken on trust. In a line the data precede the fields; in a body they follow the groups.
use crate::cursor::Cursor;
use crate::draft::BodyDraft;
use crate::texts::{past_text, text_in};
use sbe_types::{DataField, Order};

/// Skips the data of a level.
pub(crate) fn past_parts(cursor: &mut Cursor<'_>, parts: &[DataField]) -> bool {
    let mut later = false;
    for part in parts {
        if !cursor.passes_key(later, part.name.as_slice()) || past_text(cursor).is_none() {
            return false;
        }
        later = true;
    }
    true
}

/// Appends the data of a level.
pub(crate) fn parts_in(
    cursor: &mut Cursor<'_>,
    order: Order,
    parts: &[DataField],
    draft: &mut BodyDraft,
) -> bool {
    let mut later = false;
    for part in parts {
        if !cursor.passes_key(later, part.name.as_slice()) || !part_in(cursor, order, part, draft) {
            return false;
        }
        later = true;
    }
    true
}

/// Appends data: their length, and then their bytes.
fn part_in(cursor: &mut Cursor<'_>, order: Order, part: &DataField, draft: &mut BodyDraft) -> bool {
    let prim = part.length.prim;
    let Some(at) = draft.zeros(prim.width()) else {
        return false;
    };
    let start = at.saturating_add(prim.width());
    let Some(many) = text_in(cursor, draft, start) else {
        return false;
    };
    draft.passes(many) && draft.put_bits(order, prim, many as u64, at)
}
