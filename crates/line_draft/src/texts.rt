// Texts at a place of a line, taken on trust. No contract covers the result.
use crate::cursor::Cursor;
use crate::draft::BodyDraft;
use crate::octets::octets_in;
use json_values::HEX_FRONT;

/// Writes the bytes of a string, or of an object with their digits, at an offset of the draft, and returns their
/// number.
#[inline(always)]
pub(crate) fn text_in(cursor: &mut Cursor<'_>, draft: &mut BodyDraft, at: usize) -> Option<usize> {
    if cursor.takes(b'"') {
        return string_in(cursor, draft, at);
    }
    if cursor.takes_text(HEX_FRONT) {
        return octets_in(cursor, draft, at);
    }
    None
}

/// The bytes of a string whose first quote was skipped.
#[inline(always)]
fn string_in(cursor: &mut Cursor<'_>, draft: &mut BodyDraft, at: usize) -> Option<usize> {
    let rest = cursor.rest();
    let end = rest.iter().position(|b| *b == b'"' || *b == b'\\')?;
    if rest[end] == b'\\' {
        return escaped_in(cursor, draft, at);
    }
    cursor.pass(end + 1);
    if !draft.put(at, &rest[..end]) {
        return None;
    }
    Some(end)
}

/// The same, if a byte is escaped.
#[inline(never)]
fn escaped_in(cursor: &mut Cursor<'_>, draft: &mut BodyDraft, at: usize) -> Option<usize> {
    let mut many = 0usize;
    for _ in cursor.rest() {
        if cursor.takes(b'"') {
            return Some(many);
        }
        cursor.takes(b'\\');
        if !draft.put(at.saturating_add(many), &[cursor.next()]) {
            return None;
        }
        cursor.pass(1);
        many = many.saturating_add(1);
    }
    None
}

/// Skips a string, or an object with hexadecimal digits, and returns the number of its bytes.
pub(crate) fn past_text(cursor: &mut Cursor<'_>) -> Option<usize> {
    if cursor.takes(b'"') {
        return past_string(cursor);
    }
    if !cursor.takes_text(HEX_FRONT) {
        return None;
    }
    let digits = cursor.up_to(b'"')?;
    if !cursor.takes(b'}') {
        return None;
    }
    Some(digits.len() / 2)
}

/// The same for a string whose first quote was skipped.
fn past_string(cursor: &mut Cursor<'_>) -> Option<usize> {
    let rest = cursor.rest();
    let end = rest.iter().position(|b| *b == b'"' || *b == b'\\')?;
    if rest[end] == b'"' {
        cursor.pass(end + 1);
        return Some(end);
    }
    past_escaped(cursor)
}

/// The same, if a byte is escaped.
#[inline(never)]
fn past_escaped(cursor: &mut Cursor<'_>) -> Option<usize> {
    let mut many = 0usize;
    for _ in cursor.rest() {
        if cursor.takes(b'"') {
            return Some(many);
        }
        cursor.takes(b'\\');
        cursor.pass(1);
        many = many.saturating_add(1);
    }
    None
}
