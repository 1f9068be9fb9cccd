use crate::blocks::{FRONT, block_in};
use crate::cursor::Cursor;
use crate::draft::BodyDraft;
use crate::kinds::{begin_of, end_of, past};
use crate::tail::template_in;
use sbe_types::{Kind, Level, WireSchema};

/// Writes the body of the message that a line seems to hold, if it was printed by the schema. Returns false if the line
/// can't have been printed by it, or if the draft is full. Neither answer is guaranteed: a caller has to verify it.
pub fn draft_body(schema: &WireSchema, line: &[u8], draft: &mut BodyDraft) -> bool {
    draft.clear();
    if !line.starts_with(FRONT) {
        return false;
    }
    let levels = schema.messages.as_slice();
    match template_in(levels, line) {
        Some(template) => message_in(schema, &levels[template], line, draft),
        None => false,
    }
}

/// The header and the root of a message of this level.
fn message_in(schema: &WireSchema, level: &Level, line: &[u8], draft: &mut BodyDraft) -> bool {
    let mut cursor = Cursor::new(line);
    put_header(schema, level, draft) && block_in(&mut cursor, schema.order, level, draft)
}

/// The number of a header's member. The four names have different lengths, so only the length is compared.
fn header_number(schema: &WireSchema, level: &Level, name: &[u8]) -> u32 {
    let long = name.len();
    if long == b"blockLength".len() {
        level.block_length
    } else if long == b"templateId".len() {
        level.id
    } else if long == b"schemaId".len() {
        schema.id
    } else {
        schema.version
    }
}

/// Appends the header of a message of this level; false if there is no room.
pub fn put_header(schema: &WireSchema, level: &Level, draft: &mut BodyDraft) -> bool {
    let members = schema.header.members.as_slice();
    let Some(at) = draft.zeros(end_of(members)) else {
        return false;
    };
    let mut end = 0usize;
    for member in members {
        let Kind::Leaf(leaf) = &member.kind else {
            return false;
        };
        let begin = begin_of(end, member.offset);
        let number = header_number(schema, level, member.name.as_slice());
        if !draft.put_bits(
            schema.order,
            leaf.prim,
            number as u64,
            at.saturating_add(begin),
        ) {
            return false;
        }
        end = past(end, begin, &member.kind);
    }
    true
}
