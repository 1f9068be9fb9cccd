// Blocks of a text's fields, taken on trust. No contract covers the result.
use crate::digits::{long_decimal, short_decimal, short_natural};
use crate::fields::{Fields, Range, length_of};
use crate::lead::TagLead;
use crate::level::{
    BackLevels, DraftGroup, DraftLevel, DraftPart, DraftRow, DraftTree, NumberPlace,
};
use crate::values::put_value;
use crate::words::{SOH, short_text};
use field_judge::{BackLevel, BackPart, level_at};
use line_draft::BodyDraft;
use sbe_types::{DataField, Field, Group, Level, Order, WireSchema};
use text_values::TextValue;

/// The most data parts of a level. A level with more takes the general path.
const MOST_DATA: usize = 8;

/// What a template's bodies are drafted by: its schema, its levels, and those by which its texts are read.
#[derive(Clone, Copy)]
pub struct Drafting<'a> {
    pub schema: &'a WireSchema,
    pub tree: &'a DraftTree,
    pub back: BackLevels<'a>,
}

/// A level: how its blocks are drafted, and how its texts are read.
#[derive(Clone, Copy)]
struct LevelRows<'a> {
    own: &'a DraftLevel,
    back: &'a BackLevel,
}

/// A block that is drafted: its offset in the draft, how many of its groups were, and for each of its data the offsets of its
/// value.
#[derive(Drop)]
struct Block<'a> {
    at: usize,
    groups: usize,
    data: &'a mut [Range],
}

impl Block<'_> {
    /// Counts group `i`, and says whether it is the next one.
    fn has_next(&mut self, i: usize) -> bool {
        let is_next = i == self.groups;
        self.groups = i.saturating_add(1);
        is_next
    }
}

/// Writes the body of the message that a text seems to be translated to, if its fields from an offset on are in the order of
/// the template's structure. Returns false if they aren't, or if the draft is full. Neither answer is guaranteed: a caller has
/// to verify it. Allocates nothing.
pub fn draft_text(
    by: Drafting<'_>,
    level: &Level,
    text: (&[u8], usize),
    draft: &mut BodyDraft,
) -> bool {
    draft.clear();
    if draft.append(by.tree.header.as_slice()).is_none() {
        return false;
    }
    let rows = LevelRows {
        own: &by.tree.root,
        back: by.back.root,
    };
    let mut fields = Fields::from(text.0, text.1);
    block_in(by, rows, level, &mut fields, draft) && fields.are_over()
}

/// The block of a root or of an entry, its groups and its data.
#[cycle(level)]
fn block_in(
    by: Drafting<'_>,
    rows: LevelRows<'_>,
    level: &Level,
    fields: &mut Fields<'_>,
    draft: &mut BodyDraft,
) -> bool {
    if level.parts.is_empty() {
        return parts_in(by, rows, level, &mut [], fields, draft);
    }
    let mut data = [(0, 0); MOST_DATA];
    parts_in(by, rows, level, &mut data, fields, draft)
        && put_all_data(
            by.schema.order,
            level.parts.as_slice(),
            &data,
            fields,
            draft,
        )
}

/// The block and its groups. The offsets of the values of its data are kept.
#[cycle(level)]
fn parts_in(
    by: Drafting<'_>,
    rows: LevelRows<'_>,
    level: &Level,
    data: &mut [Range],
    fields: &mut Fields<'_>,
    draft: &mut BodyDraft,
) -> bool {
    let Some(at) = draft.append(rows.own.empty.as_slice()) else {
        return false;
    };
    let mut block = Block {
        at,
        groups: 0,
        data,
    };
    for (k, row) in rows.own.rows.as_slice().iter().enumerate() {
        if !put_part(by, rows, level, (k, row), &mut block, fields, draft) {
            return false;
        }
    }
    block.groups == level.groups.len()
}

/// What is at place `k` of a level, if it comes next.
#[cycle(level)]
fn put_part(
    by: Drafting<'_>,
    rows: LevelRows<'_>,
    level: &Level,
    place: (usize, &DraftRow),
    block: &mut Block<'_>,
    fields: &mut Fields<'_>,
    draft: &mut BodyDraft,
) -> bool {
    let (k, row) = place;
    let order = by.schema.order;
    match &row.part {
        DraftPart::Other(begin, i) => match fields.takes(&row.lead) {
            None => true,
            Some(text) => {
                let part = (value_at(rows.back, k), field_at(level, *i));
                other_in(order, part, text, draft, block.at.wrapping_add(*begin))
            }
        },
        DraftPart::Data(i, lead) => data_in(&row.lead, *i, lead, fields, block.data),
        DraftPart::Group(i, delimiter) => {
            block.has_next(*i) && group_in(by, rows, level, (k, *i, row), delimiter, fields, draft)
        }
        DraftPart::Number(_, _, _)
        | DraftPart::Word(_)
        | DraftPart::Character(_)
        | DraftPart::Text(_, _) => field_in(row, fields, draft, block.at),
    }
}

/// A plain field of a block that begins at an offset of the draft, if the field comes next. False for any other part.
#[inline(always)]
fn field_in(row: &DraftRow, fields: &mut Fields<'_>, draft: &mut BodyDraft, block: usize) -> bool {
    let lead = &row.lead;
    match &row.part {
        DraftPart::Number(begin, place, places) => match fields.value_of(lead) {
            None => true,
            Some(value) => {
                number_in(
                    (place, *places),
                    value,
                    fields,
                    draft,
                    block.wrapping_add(*begin),
                )
            }
        },
        DraftPart::Word(begin) => match fields.value_of(lead) {
            None => true,
            Some(value) => word_in(value, fields, draft, block.wrapping_add(*begin)),
        },
        DraftPart::Character(begin) => match fields.value_of(lead) {
            None => true,
            Some(value) => character_in(value, fields, draft, block.wrapping_add(*begin)),
        },
        DraftPart::Text(begin, most) => match fields.value_of(lead) {
            None => true,
            Some(value) => text_in(*most, value, fields, draft, block.wrapping_add(*begin)),
        },
        DraftPart::Other(_, _) => false,
        DraftPart::Data(_, _) => false,
        DraftPart::Group(_, _) => false,
    }
}

/// A number, with its sign and its point: its place, and the most digits after its point.
#[inline(always)]
fn number_in<'a>(
    form: (&NumberPlace, usize),
    value: &'a [u8],
    fields: &mut Fields<'a>,
    draft: &mut BodyDraft,
    at: usize,
) -> bool {
    let (place, places) = form;
    match short_decimal(value, places) {
        Some((bits, many)) => {
            fields.pass(value, many);
            place.put(bits, draft, at)
        }
        None => long_number_in(form, value, fields, draft, at),
    }
}

/// The same of any length.
#[inline(never)]
fn long_number_in<'a>(
    form: (&NumberPlace, usize),
    value: &'a [u8],
    fields: &mut Fields<'a>,
    draft: &mut BodyDraft,
    at: usize,
) -> bool {
    let (place, places) = form;
    match long_decimal(value, places) {
        Some((bits, many)) => {
            fields.pass(value, many);
            place.put(bits, draft, at)
        }
        None => false,
    }
}

/// A text in a field of eight bytes.
#[inline(always)]
fn word_in<'a>(value: &'a [u8], fields: &mut Fields<'a>, draft: &mut BodyDraft, at: usize) -> bool {
    match short_text(value) {
        Some((word, many)) => {
            fields.pass(value, many);
            draft.put_masked(at, word, u64::MAX)
        }
        None => false,
    }
}

/// A character.
#[inline(always)]
fn character_in<'a>(
    value: &'a [u8],
    fields: &mut Fields<'a>,
    draft: &mut BodyDraft,
    at: usize,
) -> bool {
    let [byte, SOH, ..] = value else {
        return false;
    };
    fields.pass(value, 1);
    draft.put_masked(at, u64::from(*byte), 0xFF)
}

/// A text of at most so many bytes.
#[inline(never)]
fn text_in<'a>(
    most: usize,
    value: &'a [u8],
    fields: &mut Fields<'a>,
    draft: &mut BodyDraft,
    at: usize,
) -> bool {
    let Some(many) = length_of(value) else {
        return false;
    };
    fields.pass(value, many);
    many <= most && draft.put(at, &value[..many])
}

/// The same for any value, as its text is read.
#[inline(never)]
fn other_in(
    order: Order,
    part: (Option<&TextValue>, Option<&Field>),
    text: &[u8],
    draft: &mut BodyDraft,
    at: usize,
) -> bool {
    match part {
        (Some(value), Some(field)) => read_in(order, (value, field), text, draft, at),
        _ => false,
    }
}

/// The same, where both are there.
#[inline(always)]
fn read_in(
    order: Order,
    part: (&TextValue, &Field),
    text: &[u8],
    draft: &mut BodyDraft,
    at: usize,
) -> bool {
    let (value, field) = part;
    match value.read(text) {
        Ok(read) => put_value(order, &field.kind, read, draft, at),
        Err(_) => false,
    }
}

/// How the texts of row `k` are read, if it isn't a group.
fn value_at(back: &BackLevel, k: usize) -> Option<&TextValue> {
    if k >= back.rows.len() {
        return None;
    }
    match &back.rows.at(k).part {
        BackPart::Value(value) => Some(value),
        BackPart::Group(_) => None,
    }
}

/// Field `i` of a level.
fn field_at(level: &Level, i: usize) -> Option<&Field> {
    if i >= level.fields.len() {
        return None;
    }
    Some(level.fields.at(i))
}

/// Data and its length field, if they come next: the offsets of the value are kept, since data follow the groups.
fn data_in(
    lead: &TagLead,
    i: usize,
    length: &TagLead,
    fields: &mut Fields<'_>,
    data: &mut [Range],
) -> bool {
    if i >= data.len() {
        return false;
    }
    let many = match fields.takes(length) {
        Some(digits) => number_of(digits),
        None => None,
    };
    if let Some(range) = fields.takes_data(lead, many) {
        data[i] = range;
    }
    true
}

/// The dimension and the entries of a group; none if its count doesn't come next.
#[cycle(level)]
fn group_in(
    by: Drafting<'_>,
    rows: LevelRows<'_>,
    level: &Level,
    place: (usize, usize, &DraftRow),
    delimiter: &TagLead,
    fields: &mut Fields<'_>,
    draft: &mut BodyDraft,
) -> bool {
    let (k, i, row) = place;
    if i >= level.groups.len() || i >= rows.own.groups.len() {
        return false;
    }
    let own = rows.own.groups.at(i);
    let Some(count) = dimension_in(own, row, fields, draft) else {
        return false;
    };
    if own.level >= by.tree.levels.len() {
        return false;
    }
    let entries = by.tree.levels.at(own.level);
    let run = (count, delimiter);
    if entries.is_flat {
        return flat_entries_in(entries, run, fields, draft);
    }
    let Some(back) = entries_level(by.back, rows.back, k) else {
        return false;
    };
    let inner = LevelRows { own: entries, back };
    entries_in(by, inner, level.groups.at(i), run, fields, draft)
}

/// The dimension of a group. Returns its count.
#[inline(always)]
fn dimension_in(
    group: &DraftGroup,
    row: &DraftRow,
    fields: &mut Fields<'_>,
    draft: &mut BodyDraft,
) -> Option<u64> {
    let at = draft.append(group.dim.as_slice())?;
    let count = count_in(row, fields)?;
    if !group.count.put(count, draft, at.wrapping_add(group.at)) {
        return None;
    }
    Some(count)
}

/// How the texts of the entries of the group of row `k` are read.
fn entries_level<'a>(levels: BackLevels<'a>, back: &BackLevel, k: usize) -> Option<&'a BackLevel> {
    if k >= back.rows.len() {
        return None;
    }
    match &back.rows.at(k).part {
        BackPart::Group(group) => level_at(levels.levels, group.level),
        BackPart::Value(_) => None,
    }
}

/// The entries of a group.
#[cycle(level)]
fn entries_in(
    by: Drafting<'_>,
    rows: LevelRows<'_>,
    group: &Group,
    run: (u64, &TagLead),
    fields: &mut Fields<'_>,
    draft: &mut BodyDraft,
) -> bool {
    let (count, delimiter) = run;
    for _ in 0..count {
        if !fields.is_next(delimiter) || !block_in(by, rows, &group.level, fields, draft) {
            return false;
        }
    }
    true
}

/// The same, of a level with nothing but plain fields.
#[inline(always)]
fn flat_entries_in(
    level: &DraftLevel,
    run: (u64, &TagLead),
    fields: &mut Fields<'_>,
    draft: &mut BodyDraft,
) -> bool {
    let (count, delimiter) = run;
    for _ in 0..count {
        if !fields.is_next(delimiter) || !flat_block_in(level, fields, draft) {
            return false;
        }
    }
    true
}

/// The block of such a level.
#[inline(always)]
fn flat_block_in(level: &DraftLevel, fields: &mut Fields<'_>, draft: &mut BodyDraft) -> bool {
    let Some(at) = draft.append(level.empty.as_slice()) else {
        return false;
    };
    for row in level.rows.as_slice() {
        if !field_in(row, fields, draft, at) {
            return false;
        }
    }
    true
}

/// The number of entries, or 0 if the field of the count doesn't come next. `None` if that isn't a number.
#[inline(always)]
fn count_in(row: &DraftRow, fields: &mut Fields<'_>) -> Option<u64> {
    let Some(value) = fields.value_of(&row.lead) else {
        return Some(0);
    };
    let (count, many) = short_natural(value)?;
    fields.pass(value, many);
    Some(count)
}

/// The number that digits spell, if nothing follows them.
fn number_of(digits: &[u8]) -> Option<u64> {
    let mut number = 0u64;
    for byte in digits {
        let digit = byte.wrapping_sub(b'0');
        if digit > 9 {
            return None;
        }
        number = number.wrapping_mul(10).wrapping_add(u64::from(digit));
    }
    Some(number)
}

/// The data of a level, by the offsets of their values.
fn put_all_data(
    order: Order,
    parts: &[DataField],
    data: &[Range],
    fields: &Fields<'_>,
    draft: &mut BodyDraft,
) -> bool {
    for (i, part) in parts.iter().enumerate() {
        if i >= data.len() || !put_data(order, part, fields.bytes(data[i]), draft) {
            return false;
        }
    }
    true
}

/// Appends data: their length, and then their bytes.
fn put_data(order: Order, part: &DataField, bytes: &[u8], draft: &mut BodyDraft) -> bool {
    let prim = part.length.prim;
    let Some(at) = draft.zeros(prim.width()) else {
        return false;
    };
    draft.put_bits(order, prim, bytes.len() as u64, at) && draft.append(bytes).is_some()
}
