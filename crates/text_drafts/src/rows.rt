// The rows of a level, made once. No contract covers the result.
use crate::forms::plain_part;
use crate::lead::TagLead;
use crate::level::{DraftPart, DraftRow};
use bridge_mapping::TagTable;
use field_judge::{BackLevel, BackPart, place_in};
use line_draft::{begin_of, past};
use lists::NoMem;
use sbe_types::{DataField, Field, Group, Kind, Level, Order};
use std::alloc::Global;

/// The number of a part that no level has.
pub(crate) const NO_PART: usize = usize::MAX;

/// The rows of a level, one for each place of the structure.
pub(crate) fn make_rows(
    alloc: Global,
    order: Order,
    tags: &TagTable,
    level: &Level,
    own: &BackLevel,
) -> Result<Vec<DraftRow>, NoMem> {
    let none = DraftRow {
        lead: TagLead::NONE,
        part: DraftPart::Other(0, NO_PART),
    };
    let mut rows = Vec::new(alloc);
    rows.resize(own.rows.len(), none)?;
    set_data(&mut rows, tags, level.parts.as_slice(), own);
    set_groups(&mut rows, level.groups.as_slice(), own);
    set_fields(&mut rows, order, level.fields.as_slice(), own);
    Ok(rows)
}

/// The rows of data.
fn set_data(rows: &mut [DraftRow], tags: &TagTable, parts: &[DataField], own: &BackLevel) {
    for (i, part) in parts.iter().enumerate() {
        let lead = TagLead::new(tags.length_of(part.id).unwrap_or(0));
        set_row(rows, own, part.id, DraftPart::Data(i, lead));
    }
}

/// The rows of groups.
fn set_groups(rows: &mut [DraftRow], groups: &[Group], own: &BackLevel) {
    for (i, group) in groups.iter().enumerate() {
        let id = group.level.id;
        set_row(rows, own, id, DraftPart::Group(i, delimiter_of(own, id)));
    }
}

/// What begins each entry of the group with this tag; nothing does if the structure has no such group.
fn delimiter_of(own: &BackLevel, tag: u32) -> TagLead {
    let Some(k) = place_in(own, tag) else {
        return TagLead::NONE;
    };
    match &own.rows.at(k).part {
        BackPart::Group(group) => TagLead::new(group.delimiter),
        BackPart::Value(_) => TagLead::NONE,
    }
}

/// The rows of fields.
fn set_fields(rows: &mut [DraftRow], order: Order, fields: &[Field], own: &BackLevel) {
    let mut end = 0usize;
    for (i, field) in fields.iter().enumerate() {
        let begin = begin_of(end, field.offset);
        let part = field_part(order, own, (field.id, &field.kind), (begin, i));
        set_row(rows, own, field.id, part);
        end = past(end, begin, &field.kind);
    }
}

/// The part of the field with this tag and kind, which has an offset and a number.
fn field_part(
    order: Order,
    own: &BackLevel,
    field: (u32, &Kind),
    place: (usize, usize),
) -> DraftPart {
    let (tag, kind) = field;
    let (begin, i) = place;
    let other = DraftPart::Other(begin, i);
    let Some(k) = place_in(own, tag) else {
        return other;
    };
    let BackPart::Value(value) = &own.rows.at(k).part else {
        return other;
    };
    plain_part(order, value, kind, begin).unwrap_or(other)
}

/// Sets the row of the part with this tag, if the structure has one.
fn set_row(rows: &mut [DraftRow], own: &BackLevel, tag: u32, part: DraftPart) {
    if let Some(k) = place_in(own, tag)
        && k < rows.len()
    {
        rows[k] = DraftRow {
            lead: TagLead::new(tag),
            part,
        };
    }
}
