// Blocks at a place of a line, taken on trust. No contract covers the result.
use crate::cursor::Cursor;
use crate::draft::BodyDraft;
use crate::kinds::{begin_of, end_of, past, value_in};
use crate::parts::{parts_in, past_parts};
use sbe_types::{Field, Group, Kind, Level, Order};

/// The beginning of the object of a root or of an entry.
pub(crate) const FRONT: &[u8] = b"{\"data\":{";

/// The object of a message's root or of an entry, without the closing bracket.
#[cycle(level)]
pub(crate) fn block_in(
    cursor: &mut Cursor<'_>,
    order: Order,
    level: &Level,
    draft: &mut BodyDraft,
) -> bool {
    if !cursor.passes_text(FRONT) {
        return false;
    }
    let mut data = cursor.again();
    let parts = level.parts.as_slice();
    if !past_parts(cursor, parts) || !cursor.passes_text(b"},\"fields\":{") {
        return false;
    }
    let Some(at) = draft.zeros(level.block_length as usize) else {
        return false;
    };
    if !fields_in(cursor, order, level.fields.as_slice(), draft, at)
        || !cursor.passes_text(b"},\"groups\":{")
    {
        return false;
    }
    groups_in(cursor, order, level.groups.as_slice(), draft)
        && cursor.takes(b'}')
        && parts_in(&mut data, order, parts, draft)
}

/// The fields of a block that begins at an offset of the draft.
fn fields_in(
    cursor: &mut Cursor<'_>,
    order: Order,
    fields: &[Field],
    draft: &mut BodyDraft,
    at: usize,
) -> bool {
    let mut later = false;
    let mut end = 0usize;
    for field in fields {
        let begin = begin_of(end, field.offset);
        if !cursor.passes_key(later, field.name.as_slice())
            || !value_in(cursor, order, &field.kind, draft, at.saturating_add(begin))
        {
            return false;
        }
        end = past(end, begin, &field.kind);
        later = true;
    }
    true
}

/// The groups of a block.
#[cycle(level)]
fn groups_in(
    cursor: &mut Cursor<'_>,
    order: Order,
    groups: &[Group],
    draft: &mut BodyDraft,
) -> bool {
    let mut later = false;
    for group in groups {
        if !cursor.passes_key(later, group.level.name.as_slice())
            || !group_in(cursor, order, group, draft)
        {
            return false;
        }
        later = true;
    }
    true
}

/// The dimension and the entries of a group.
#[cycle(level)]
fn group_in(cursor: &mut Cursor<'_>, order: Order, group: &Group, draft: &mut BodyDraft) -> bool {
    let Some(at) = draft.zeros(end_of(group.dim.as_slice())) else {
        return false;
    };
    match entries_in(cursor, order, &group.level, draft) {
        Some(count) => put_dim(order, group, count, draft, at),
        None => false,
    }
}

/// The entries of a group, and how many there are.
#[cycle(level)]
fn entries_in(
    cursor: &mut Cursor<'_>,
    order: Order,
    level: &Level,
    draft: &mut BodyDraft,
) -> Option<u32> {
    if !cursor.takes(b'[') {
        return None;
    }
    let mut count = 0u32;
    for _ in cursor.rest() {
        if cursor.next() != b'{' {
            break;
        }
        if !block_in(cursor, order, level, draft) || !cursor.takes(b'}') {
            return None;
        }
        count = count.saturating_add(1);
        cursor.takes(b',');
    }
    if !cursor.takes(b']') {
        return None;
    }
    Some(count)
}

/// The numbers of the dimension of a group, from an offset of the draft on; false if there is no room. Its two names have
/// different lengths.
pub fn put_dim(order: Order, group: &Group, count: u32, draft: &mut BodyDraft, at: usize) -> bool {
    let block = group.level.block_length;
    let mut end = 0usize;
    for member in group.dim.as_slice() {
        let Kind::Leaf(leaf) = &member.kind else {
            return false;
        };
        let is_block = member.name.len() == b"blockLength".len();
        let number = if is_block { block } else { count };
        let begin = begin_of(end, member.offset);
        if !draft.put_bits(order, leaf.prim, number as u64, at.saturating_add(begin)) {
            return false;
        }
        end = past(end, begin, &member.kind);
    }
    true
}
