// Values at a place of a line, taken on trust. No contract covers the result.
use crate::arrays::array_in;
use crate::bits::bits_of;
use crate::cursor::Cursor;
use crate::draft::BodyDraft;
use crate::names::{enum_in, set_in};
use crate::numbers::integer_in;
use crate::texts::{past_text, text_in};
use sbe_types::{ConstValue, Kind, Leaf, LeafShape, Member, Order};

/// How many bytes a value takes.
#[cycle(width)]
#[inline(always)]
fn width_of(kind: &Kind) -> usize {
    match kind {
        Kind::Leaf(leaf) => leaf.prim.width().saturating_mul(leaf.length as usize),
        Kind::Enum(leaf, _) => leaf.prim.width(),
        Kind::Set(prim, _) => prim.width(),
        Kind::Const(_) => 0,
        Kind::Comp(members) => end_of(members.as_slice()),
    }
}

/// The end of the members of a composite, a header or a dimension.
#[cycle(width)]
pub fn end_of(members: &[Member]) -> usize {
    let mut end = 0usize;
    for member in members {
        end = past(end, begin_of(end, member.offset), &member.kind);
    }
    end
}

/// The offset of a part after parts that end at `end`.
#[inline(always)]
pub fn begin_of(end: usize, offset: Option<u32>) -> usize {
    match offset {
        Some(place) => place as usize,
        None => end,
    }
}

/// The end of a part that begins at an offset, after parts that end at `end`.
#[cycle(width)]
#[inline(always)]
pub fn past(end: usize, begin: usize, kind: &Kind) -> usize {
    match kind {
        Kind::Const(_) => end,
        Kind::Leaf(_) | Kind::Enum(_, _) | Kind::Set(_, _) | Kind::Comp(_) => {
            begin.saturating_add(width_of(kind))
        }
    }
}

/// The value of a kind, at an offset of the draft.
#[cycle(kind)]
pub(crate) fn value_in(
    cursor: &mut Cursor<'_>,
    order: Order,
    kind: &Kind,
    draft: &mut BodyDraft,
    at: usize,
) -> bool {
    match kind {
        Kind::Leaf(leaf) => leaf_in(cursor, order, leaf, draft, at),
        Kind::Enum(leaf, names) => match enum_in(cursor, leaf, names.as_slice()) {
            Some(bits) => draft.put_bits(order, leaf.prim, bits, at),
            None => false,
        },
        Kind::Set(prim, names) => match set_in(cursor, names.as_slice()) {
            Some(bits) => draft.put_bits(order, *prim, bits, at),
            None => false,
        },
        Kind::Const(constant) => is_constant(cursor, constant),
        Kind::Comp(members) => members_in(cursor, order, members.as_slice(), draft, at),
    }
}

/// The values of a composite's members.
#[cycle(kind)]
fn members_in(
    cursor: &mut Cursor<'_>,
    order: Order,
    members: &[Member],
    draft: &mut BodyDraft,
    at: usize,
) -> bool {
    if !cursor.takes(b'{') {
        return false;
    }
    let mut later = false;
    let mut end = 0usize;
    for member in members {
        let begin = begin_of(end, member.offset);
        if !cursor.passes_key(later, member.name.as_slice())
            || !value_in(cursor, order, &member.kind, draft, at.saturating_add(begin))
        {
            return false;
        }
        end = past(end, begin, &member.kind);
        later = true;
    }
    cursor.takes(b'}')
}

/// A single number, a text or an array, or null.
#[inline(always)]
fn leaf_in(
    cursor: &mut Cursor<'_>,
    order: Order,
    leaf: &Leaf,
    draft: &mut BodyDraft,
    at: usize,
) -> bool {
    match leaf.shape {
        LeafShape::Number => {
            let bits = single_in(cursor, leaf);
            draft.put_bits(order, leaf.prim, bits, at)
        }
        LeafShape::RangedText | LeafShape::EncodedText => {
            if cursor.next() == b'n' {
                return cursor.takes_text(b"null");
            }
            text_in(cursor, draft, at).is_some()
        }
        LeafShape::Octets | LeafShape::Numbers => array_in(cursor, order, leaf, draft, at),
    }
}

/// The bits of a single number: an integer, a char as a string, or null.
#[inline(always)]
fn single_in(cursor: &mut Cursor<'_>, leaf: &Leaf) -> u64 {
    if cursor.takes(b'"') {
        return char_in(cursor);
    }
    if cursor.next() == b'n' {
        cursor.takes_text(b"null");
        return bits_of(leaf.null);
    }
    integer_in(cursor)
}

/// The byte of a string of one character, whose first quote was skipped.
fn char_in(cursor: &mut Cursor<'_>) -> u64 {
    cursor.takes(b'\\');
    let byte = cursor.next();
    cursor.pass(1);
    cursor.takes(b'"');
    byte as u64
}

/// Skips a constant.
fn is_constant(cursor: &mut Cursor<'_>, constant: &ConstValue) -> bool {
    match constant {
        ConstValue::Num(_) => {
            single_past(cursor);
            true
        }
        ConstValue::Text(_) => past_text(cursor).is_some(),
        ConstValue::Code(_, _) => past_text(cursor).is_some(),
    }
}

/// Skips a number, or a char as a string.
fn single_past(cursor: &mut Cursor<'_>) {
    if cursor.takes(b'"') {
        char_in(cursor);
    } else {
        integer_in(cursor);
    }
}
