// Names of enums and sets at a place of a line, taken on trust. No contract covers the result.
use crate::bits::bits_of;
use crate::cursor::Cursor;
use crate::numbers::{integer_in, natural_in};
use named_numbers::bit_of;
use sbe_types::{Leaf, Named};

/// The number with this name.
#[inline(always)]
fn number_of(names: &[Named], name: &[u8]) -> Option<i128> {
    for named in names {
        if named.name.as_slice() == name {
            return Some(named.number);
        }
    }
    None
}

/// The bits of an enum: the name of a valid value, a number, or null.
pub(crate) fn enum_in(cursor: &mut Cursor<'_>, leaf: &Leaf, names: &[Named]) -> Option<u64> {
    if cursor.takes(b'"') {
        let name = cursor.up_to(b'"')?;
        return Some(bits_of(number_of(names, name)?));
    }
    if cursor.takes_text(b"null") {
        return Some(bits_of(leaf.null));
    }
    Some(integer_in(cursor))
}

/// The bits of a set: an array of the names of its choices, or its number.
pub(crate) fn set_in(cursor: &mut Cursor<'_>, names: &[Named]) -> Option<u64> {
    if !cursor.takes(b'[') {
        return Some(natural_in(cursor));
    }
    let mut bits = 0u64;
    for _ in cursor.rest() {
        if !cursor.takes(b'"') {
            break;
        }
        bits |= set_of(number_of(names, cursor.up_to(b'"')?)?);
        cursor.takes(b',');
    }
    if !cursor.takes(b']') {
        return None;
    }
    Some(bits)
}

/// The set of one choice, or the empty set if the number isn't that of a bit.
fn set_of(number: i128) -> u64 {
    match bit_of(&number) {
        Some(place) => 1 << place,
        None => 0,
    }
}
