// Blocks without the fields of a text. No contract covers the result.
use crate::values::put_value;
use field_judge::{BackLevel, BackPart, place_in};
use line_draft::{BodyDraft, begin_of, past};
use lists::NoMem;
use sbe_types::{Field, Level, Order};
use std::alloc::Global;

/// A block in which each value is that of a part without a field. It is empty if it doesn't fit a draft.
pub(crate) fn empty_block(
    alloc: Global,
    order: Order,
    level: &Level,
    own: &BackLevel,
    draft: &mut BodyDraft,
) -> Result<Vec<u8>, NoMem> {
    draft.clear();
    if let Some(at) = draft.zeros(level.block_length as usize) {
        put_all_missing(order, level.fields.as_slice(), own, draft, at);
    }
    copy_of(alloc, draft)
}

/// A copy of the bytes of a draft.
pub(crate) fn copy_of(alloc: Global, draft: &BodyDraft) -> Result<Vec<u8>, NoMem> {
    Ok(Vec::from_slice(alloc, draft.bytes())?)
}

/// The values of fields that a text lacks, in a block that begins at an offset of the draft.
fn put_all_missing(
    order: Order,
    fields: &[Field],
    own: &BackLevel,
    draft: &mut BodyDraft,
    at: usize,
) {
    let mut end = 0usize;
    for field in fields {
        let begin = begin_of(end, field.offset);
        put_missing(order, field, own, draft, at.saturating_add(begin));
        end = past(end, begin, &field.kind);
    }
}

/// The value of a field that a text lacks, if a message may lack it.
fn put_missing(order: Order, field: &Field, own: &BackLevel, draft: &mut BodyDraft, at: usize) {
    let Some(k) = place_in(own, field.id) else {
        return;
    };
    if let BackPart::Value(value) = &own.rows.at(k).part
        && let Some(missing) = value.missing()
    {
        put_value(order, &field.kind, missing, draft, at);
    }
}
