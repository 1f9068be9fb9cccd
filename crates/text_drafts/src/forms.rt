// The parts of plain fields, found out once. No contract covers the result.
use crate::digits::MOST_PLACES;
use crate::level::{DraftPart, NumberPlace};
use sbe_types::{Kind, Leaf, Member, Named, Order, Prim};
use text_values::{ReadValue, TextValue};

/// The part of a field with this offset in the block. `None` if it is read as the structure says.
pub(crate) fn plain_part(
    order: Order,
    value: &TextValue,
    kind: &Kind,
    begin: usize,
) -> Option<DraftPart> {
    match value {
        TextValue::Number(_, leaf) => Some(number_part(order, leaf, begin)),
        TextValue::Decimal(leaf, exponent) => decimal_part(order, leaf, *exponent, kind, begin),
        TextValue::Passage(leaf) => Some(text_part(leaf, begin)),
        TextValue::Listed(_, leaf) => character_part(value, leaf, kind, begin),
        _ => None,
    }
}

/// A number: a char is one byte.
fn number_part(order: Order, leaf: &Leaf, begin: usize) -> DraftPart {
    match leaf.prim {
        Prim::Char => DraftPart::Character(begin),
        prim => DraftPart::Number(begin, NumberPlace::new(order, prim), 0),
    }
}

/// A text.
fn text_part(leaf: &Leaf, begin: usize) -> DraftPart {
    if leaf.length == 8 {
        return DraftPart::Word(begin);
    }
    DraftPart::Text(begin, leaf.length as usize)
}

/// A decimal, if its mantissa is the first member and is at the place of the composite.
fn decimal_part(
    order: Order,
    leaf: &Leaf,
    exponent: i128,
    kind: &Kind,
    begin: usize,
) -> Option<DraftPart> {
    let Kind::Comp(members) = kind else {
        return None;
    };
    if !begins_with_mantissa(members.as_slice()) {
        return None;
    }
    let places = usize::try_from(exponent.checked_neg()?).ok()?;
    if places > MOST_PLACES {
        return None;
    }
    let place = NumberPlace::new(order, leaf.prim);
    Some(DraftPart::Number(begin, place, places))
}

/// Whether the first member is at the place of its composite and isn't a constant.
fn begins_with_mantissa(members: &[Member]) -> bool {
    match members {
        [first, ..] => match first.kind {
            Kind::Leaf(_) => first.offset.unwrap_or(0) == 0,
            _ => false,
        },
        [] => false,
    }
}

/// An enum of characters, if each is the text of its code.
fn character_part(value: &TextValue, leaf: &Leaf, kind: &Kind, begin: usize) -> Option<DraftPart> {
    let Kind::Enum(_, names) = kind else {
        return None;
    };
    if leaf.prim != Prim::Char || !are_characters(value, names.as_slice()) {
        return None;
    }
    Some(DraftPart::Character(begin))
}

/// Whether the text of each valid value is its own character.
fn are_characters(value: &TextValue, names: &[Named]) -> bool {
    names.iter().all(|named| is_character(value, named.number))
}

/// Whether the character with this number is read as the number.
fn is_character(value: &TextValue, number: i128) -> bool {
    let Ok(byte) = u8::try_from(number) else {
        return false;
    };
    match value.read(&[byte]) {
        Ok(ReadValue::Listed(read)) => read == number,
        _ => false,
    }
}
