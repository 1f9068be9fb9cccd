ghost use Rattle.std.specs.Prelude.{◌≡◌, ◌≤◌, ◌<◌, ◌+◌, ◌-◌, length, take, drop, [], List, false, Ok, Err, OnOk, OnErr, IfErr};
ghost use Rattle.tagvalue_codec.specs.Reading as reading;
ghost use Rattle.tagvalue_codec.specs.Texts as texts;
ghost use Rattle.tagvalue_codec.specs.Texts.{Free, IsFirstFault};
ghost use Rattle.tagvalue_codec.specs.Pairs.{role_of};
ghost use Rattle.tagvalue_codec.specs.declared.data_tags.Pair.{Pair};
ghost use Rattle.tagvalue_codec.specs.declared.table.TheConstants.{FIELD_LIMIT};
ghost use Rattle.tagvalue_codec.specs.Places.{FindsTag, FindsAt, FindsSize, FoundAt, IsNumberOf, cursor, Passes, Holds, Read, filled};
ghost use Rattle.tagvalue_codec.specs.Places as places;

use crate::data_tags::{DataTags, Role};
use crate::scan::{SOH, end_of_value, sum_of};
use crate::table::{FieldTable, FixField};

/// What is wrong with a text: T01 to T08. The rules are those of the FIX tag=value encoding (FIX 4.4, "Message
/// format").
#[derive(Clone, Copy, Debug, PartialEq, Eq)]
pub enum TCode {
    /// T01: the text doesn't begin with BeginString (8). "The first three fields in the standard header are BeginString
    /// (tag #8) followed by BodyLength (tag #9) then MsgType (tag #35)."
    FirstTag,
    /// T02: no BodyLength (9) of 1 to 9 digits follows.
    BodyLength,
    /// T03: BodyLength isn't the number of bytes after its own SOH up to `10=`. The detail is the right number.
    LengthWrong,
    /// T04: the body doesn't begin with MsgType (35).
    MsgType,
    /// T05: the text doesn't end with `10=`, three digits and SOH, or CheckSum isn't the sum of all preceding bytes
    /// modulo 256. The detail is the right sum.
    CheckSum,
    /// T06: there is no whole field here in the body, or 8, 9, 10 or 35 occurs again. A field is a tag of 1 to 9 digits
    /// without a leading zero, `=`, a value that isn't empty, and SOH.
    Field,
    /// T07: a length field isn't 1 to 9 digits above zero, or its data field doesn't follow; or a data field has no
    /// length field before it, extends past the body, or isn't followed by SOH. "Data fields are always immediately
    /// preceded by a length field."
    DataLength,
    /// T08: the field would be the 4,097th, counting 8, 9, 35 and 10.
    TooMany,
}

/// The first fault of a text.
#[derive(Clone, Copy, Debug, PartialEq, Eq)]
pub struct FixFault {
    pub code: TCode,
    /// Its offset in the text.
    pub offset: usize,
    /// The right number for T03 and the right sum for T05, otherwise 0.
    pub detail: u64,
}

/// The tag that begins at `at`, and the offset after its `=`.
#[inline(always)]
fn tag_at(text: &[u8], at: usize) -> Option<(u32, usize)>
    ensures { FindsTag text.now at result }
{
    if at >= text.len() {
        return None;
    }
    let first = text[at];
    if first <= b'0' || b'9' < first {
        return None;
    }
    let mut tag = (first - b'0') as u32;
    let mut i = at + 1;
    while i < text.len() {
        let byte = text[i];
        if byte.is_ascii_digit() {
            if tag >= 100_000_000 {
                return None;
            }
            tag = tag * 10 + (byte - b'0') as u32;
            i += 1;
        } else if byte == b'=' {
            return Some((tag, i + 1));
        } else {
            return None;
        }
    }
    None
}

/// The field that begins at `at`, if its value contains no SOH.
#[inline(always)]
fn field_at(text: &[u8], at: usize) -> Option<FixField>
    ensures { FindsAt reading.field_read text.now at result }
{
    let (tag, from) = tag_at(text, at)?;
    let to = end_of_value(text, from);
    if to >= text.len() || to == from {
        return None;
    }
    Some(FixField { tag, at, from, to })
}

/// The number in a value of 1 to 9 digits.
fn number_of(value: &[u8]) -> Option<u32>
    ensures { IsNumberOf value.now result }
{
    if value.is_empty() || value.len() > 9 {
        return None;
    }
    let mut number: u32 = 0;
    for digit in value {
        if !digit.is_ascii_digit() {
            return None;
        }
        number = number * 10 + (*digit - b'0') as u32;
    }
    Some(number)
}

/// The field with this tag that begins at `at`.
#[inline(always)]
#[tactic(auto, using(crate::proofs::Placing::tagged_found, crate::proofs::Placing::tagged_lacks))]
fn tagged_at(text: &[u8], at: usize, tag: u32) -> Option<FixField>
    ensures { FindsAt (reading.tagged_read tag) text.now at result }
{
    let field = field_at(text, at)?;
    if field.tag != tag {
        return None;
    }
    Some(field)
}

/// The field 9 of 1 to 9 digits that begins at `at`, and its number.
#[tactic(auto, using(crate::proofs::Placing::size_found, crate::proofs::Placing::size_lacks))]
fn size_at(text: &[u8], at: usize) -> Option<(FixField, u32)>
    ensures { FindsSize text.now at result }
{
    let field = tagged_at(text, at, 9)?;
    match number_of(&text[field.from..field.to]) {
        Some(number) => Some((field, number)),
        None => None,
    }
}

/// Whether a tag has a fixed position: 8, 9, 10 and 35.
#[inline(always)]
fn is_locked(tag: u32) -> bool
    ensures { result ≡ texts.is_locked tag }
{
    tag == 8 || tag == 9 || tag == 10 || tag == 35
}

/// A fault without a detail.
fn fault(code: TCode, offset: usize) -> FixFault
    ensures { result ≡ reading.fault_at code offset }
{
    FixFault {
        code,
        offset,
        detail: 0,
    }
}

/// Appends a length field and the data field after it, and returns the offset after both.
fn data_after(
    front: &[u8],
    size: FixField,
    tag: u32,
    table: &mut FieldTable,
) -> Result<usize, FixFault>
    requires few { length table.old < FIELD_LIMIT }
    requires found { FoundAt reading.field_read front.now size.at size }
    requires free { texts.is_locked size.tag ≡ false }
    ensures { (tags : List Pair) → role_of tags size.tag ≡ Role.Length tag → Passes tags front.now (cursor table.old size.at) table.new result }
{
    let Some(many) = number_of(&front[size.from..size.to]) else {
        return Err(fault(TCode::DataLength, size.at));
    };
    let at = size.to + 1;
    let Some((next, from)) = tag_at(front, at) else {
        return Err(fault(TCode::DataLength, size.at));
    };
    if many == 0 {
        return Err(fault(TCode::DataLength, size.at));
    }
    if next != tag {
        return Err(fault(TCode::DataLength, size.at));
    }
    table.push(size);
    if table.is_full() {
        return Err(fault(TCode::TooMany, at));
    }
    let to = from + many as usize;
    if !ends_at(front, to) {
        return Err(fault(TCode::DataLength, at));
    }
    table.push(FixField { tag, at, from, to });
    Ok(to + 1)
}

/// Whether there is SOH at an offset.
fn ends_at(front: &[u8], to: usize) -> bool
    ensures { result ≡ places.ends_at to front.now }
{
    to < front.len() && front[to] == SOH
}

/// Appends the fields of a body from an offset on.
fn fill_body(
    front: &[u8],
    begin: usize,
    tags: &DataTags,
    table: &mut FieldTable,
) -> Result<(), FixFault>
    requires { begin ≤ length front.now }
    ensures ok { OnOk result (filled tags.now Free table.old begin front.now ≡ Ok table.new) }
    ensures err { IfErr result (λ f. filled tags.now Free table.old begin front.now ≡ Err f) }
    ensures few { OnOk result (length table.new < FIELD_LIMIT) }
{
    let mut at = begin;
    while at < front.len() {
        if table.is_full() {
            return Err(fault(TCode::TooMany, at));
        }
        let Some(field) = field_at(front, at) else {
            return Err(fault(TCode::Field, at));
        };
        if is_locked(field.tag) {
            return Err(fault(TCode::Field, at));
        }
        match tags.role(field.tag) {
            Role::Plain => {
                table.push(field);
                at = field.to + 1;
            }
            Role::Data => return Err(fault(TCode::DataLength, at)),
            Role::Length(tag) => at = data_after(front, field, tag, table)?,
        }
    }
    if table.is_full() {
        return Err(fault(TCode::TooMany, at));
    }
    Ok(())
}

/// Reads a tag-value text: fills the table with the ranges of all its fields, including 8, 9, 35 and 10.
///
/// It allocates nothing and copies nothing.
///
/// # Errors
///
/// The first fault, in the order T01, T02, T03, T04, then field by field T08, T06 and T07, and T05 at the end. The
/// table is then empty.
#[tactic(auto, using(crate::proofs::Told::holds, crate::proofs::Told::is_fault))]
pub fn read_fix(text: &[u8], tags: &DataTags, table: &mut FieldTable) -> Result<(), FixFault>
    ensures ok { OnOk result (Holds tags.now text.now table.new) }
    ensures err { IfErr result (λ f. IsFirstFault tags.now text.now f) }
    ensures empty { OnErr result (table.new ≡ []) }
{
    match fill(text, tags, table) {
        Ok(()) => Ok(()),
        Err(fault) => {
            table.clear();
            Err(fault)
        }
    }
}

/// The same, but a refusal may leave fields in the table.
fn fill(text: &[u8], tags: &DataTags, table: &mut FieldTable) -> Result<(), FixFault>
    ensures ok { OnOk result (Read tags.now text.now table.new) }
    ensures err { IfErr result (λ f. reading.text_read tags.now text.now ≡ Err f) }
{
    table.clear();
    let Some(begin) = tagged_at(text, 0, 8) else {
        return Err(fault(TCode::FirstTag, 0));
    };
    let at = begin.to + 1;
    let Some((size, number)) = size_at(text, at) else {
        return Err(fault(TCode::BodyLength, at));
    };
    let body = size.to + 1;
    let left = text.len() - body;
    if number as usize + 7 != left {
        return Err(FixFault {
            code: TCode::LengthWrong,
            offset: at,
            detail: left.saturating_sub(7) as u64,
        });
    }
    let stop = text.len() - 7;
    let front = &text[..stop];
    let Some(kind) = tagged_at(front, body, 35) else {
        return Err(fault(TCode::MsgType, body));
    };
    table.push(begin);
    table.push(size);
    table.push(kind);
    match fill_body(front, kind.to + 1, tags, table) {
        Ok(()) => {}
        Err(fault) => return Err(fault),
    }
    let sum = sum_of(front);
    if !is_sum_field(&text[stop..], sum) {
        return Err(FixFault {
            code: TCode::CheckSum,
            offset: stop,
            detail: sum as u64,
        });
    }
    table.push(FixField {
        tag: 10,
        at: stop,
        from: stop + 3,
        to: stop + 6,
    });
    Ok(())
}

/// Whether the bytes are a field 10 with this sum in three digits.
#[tactic(auto, using(crate::proofs::Told::same_as_sum))]
fn is_sum_field(last: &[u8], sum: u8) -> bool
    ensures { result ≡ places.is_sum_field last.now sum }
{
    let right = [
        b'1',
        b'0',
        b'=',
        b'0' + sum / 100,
        b'0' + sum / 10 % 10,
        b'0' + sum % 10,
        SOH,
    ];
    last == right.as_slice()
}
