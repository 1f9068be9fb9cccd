// Values that were read of a text, at an offset of the draft. No contract covers the result.
use line_draft::{BodyDraft, begin_of, bits_of, past};
use sbe_types::{Kind, Leaf, Member, Order};
use text_values::ReadValue;

/// The most members of a composite that is written.
const MOST_MEMBERS: usize = 4;

/// Writes a value of a kind at an offset; false if the kind has no such value, or if there is no room.
pub(crate) fn put_value(
    order: Order,
    kind: &Kind,
    value: ReadValue<'_>,
    draft: &mut BodyDraft,
    at: usize,
) -> bool {
    match kind {
        Kind::Leaf(leaf) => put_leaf(order, leaf, value, draft, at),
        Kind::Enum(leaf, _) => match value {
            ReadValue::Listed(n) => draft.put_bits(order, leaf.prim, bits_of(n), at),
            ReadValue::Number(None) => draft.put_bits(order, leaf.prim, bits_of(leaf.null), at),
            _ => false,
        },
        Kind::Set(prim, _) => match value {
            ReadValue::Choices(bits) => draft.put_bits(order, *prim, bits, at),
            _ => false,
        },
        Kind::Const(_) => true,
        Kind::Comp(members) => put_members(
            order,
            members.as_slice(),
            &numbers_of(value),
            draft,
            at,
        ),
    }
}

/// A number or a text.
fn put_leaf(
    order: Order,
    leaf: &Leaf,
    value: ReadValue<'_>,
    draft: &mut BodyDraft,
    at: usize,
) -> bool {
    match value {
        ReadValue::Number(n) => draft.put_bits(order, leaf.prim, bits_or_null(leaf, n), at),
        ReadValue::Text(text) => text.len() <= leaf.length as usize && draft.put(at, text),
        _ => false,
    }
}

/// The bits of a number, or of the leaf's null.
fn bits_or_null(leaf: &Leaf, number: Option<i128>) -> u64 {
    match number {
        Some(n) => bits_of(n),
        None => bits_of(leaf.null),
    }
}

/// The numbers of a composite's members.
fn numbers_of(value: ReadValue<'_>) -> [Option<i128>; MOST_MEMBERS] {
    match value {
        ReadValue::Scaled(n) => [n, None, None, None],
        ReadValue::Pair(n, m) => [n, m, None, None],
        ReadValue::Month(year, month, day, week) => [year, month, day, week],
        _ => [None; MOST_MEMBERS],
    }
}

/// The members of a composite.
fn put_members(
    order: Order,
    members: &[Member],
    numbers: &[Option<i128>],
    draft: &mut BodyDraft,
    at: usize,
) -> bool {
    let mut end = 0usize;
    for (i, member) in members.iter().enumerate() {
        if i >= numbers.len() {
            return false;
        }
        let begin = begin_of(end, member.offset);
        if !put_member(
            order,
            &member.kind,
            numbers[i],
            draft,
            at.saturating_add(begin),
        ) {
            return false;
        }
        end = past(end, begin, &member.kind);
    }
    true
}

/// A member of a composite: a number, or a constant, which takes no bytes.
fn put_member(
    order: Order,
    kind: &Kind,
    number: Option<i128>,
    draft: &mut BodyDraft,
    at: usize,
) -> bool {
    match kind {
        Kind::Leaf(leaf) => draft.put_bits(order, leaf.prim, bits_or_null(leaf, number), at),
        Kind::Enum(leaf, _) => draft.put_bits(order, leaf.prim, bits_or_null(leaf, number), at),
        Kind::Const(_) => true,
        Kind::Set(_, _) | Kind::Comp(_) => false,
    }
}
