ghost use Rattle.std.specs.Prelude.{◌≡◌, ◌≤◌, ◌<◌, ◌+◌, ◌^◌, [], length, take, drop, true, false, IfOk, IfSome};
ghost use Rattle.std.specs.Result.{is_ok};
ghost use Rattle.tagvalue_codec.specs.Reading.{plain_len, tagged_read, text_read};
ghost use Rattle.tagvalue_codec.specs.Places.{FoundAt};
ghost use Rattle.tagvalue_codec.specs.Places as places;
ghost use Rattle.raw_walk.specs.Recalled.{AreEnds, Recalls, held_at};
ghost use Rattle.raw_walk.specs.Openings.{OpensAt};

use crate::ends::Ends;
use crate::scan::{SOH, ends_at, number_of, tag_at};
use crate::sums::Sums;
use crate::walk::{Front, may_be_body, tagged_at};
use lists::NoMem;
use std::alloc::Global;
use tagvalue_codec::{DataTags, FixField};

/// The length of the last field of a text.
const LAST_BYTES: usize = 7;

/// What is remembered of the bytes that are held: sums of them, and where long values end.
#[derive(Drop)]
pub struct Recall {
    ends: Ends,
    sums: Sums,
    /// Up to this offset of the input, texts were read whole. One that begins before it is judged by what is remembered.
    read: u64,
}

impl Recall {
    /// Creates it for at most `size` bytes that are held.
    ///
    /// # Errors
    ///
    /// If memory runs out.
    pub fn new(alloc: Global, size: usize) -> Result<Recall, NoMem>
        ensures { IfOk result (λ recall. Recalls (held_at 0 []) recall) }
    {
        Ok(Recall {
            ends: Ends::new(alloc, size)?,
            sums: Sums::new(alloc, size)?,
            read: 0,
        })
    }

    /// Whether the first `size` bytes that are held are known not to be a text. `place` bytes of the input precede those
    /// that are held, and no SOH precedes the one at `soh`.
    ///
    /// A text that begins after all that were read whole isn't known, and counts as read from then on.
    pub fn refuses(
        &mut self,
        held: &[u8],
        place: u64,
        size: usize,
        soh: usize,
        tags: &DataTags,
    ) -> bool
        requires size { size ≤ length held.now }
        requires plain { soh ≤ plain_len held.now }
        requires room { place + length held.now < 2 ^ 64 }
        requires recalls { Recalls (held_at place held.now) self.old }
        ensures refuses { result ≡ true → is_ok (text_read tags.now (take size held.now)) ≡ false }
        ensures recalls { Recalls (held_at place held.now) self.new }
    {
        if self.read <= place {
            self.read = place + size as u64;
            return false;
        }
        !self.may_be(held, place, size, soh, tags)
    }

    /// Whether the first `size` bytes may be a text.
    fn may_be(&mut self, held: &[u8], place: u64, size: usize, soh: usize, tags: &DataTags) -> bool
        requires size { size ≤ length held.now }
        requires plain { soh ≤ plain_len held.now }
        requires room { place + length held.now < 2 ^ 64 }
        requires recalls { Recalls (held_at place held.now) self.old }
        ensures refuses { result ≡ false → is_ok (text_read tags.now (take size held.now)) ≡ false }
        ensures recalls { Recalls (held_at place held.now) self.new }
    {
        if size < LAST_BYTES {
            return true;
        }
        let stop = size - LAST_BYTES;
        let sum = self.sums.sum_to(held, place, stop);
        if !is_sum_field(&held[stop..size], sum) {
            return false;
        }
        may_be_fields(Front { held, place, stop }, soh, tags, &mut self.ends)
    }
}

/// Whether the fields of a text may be right. The front is the text without its last field.
fn may_be_fields(front: Front<'_>, soh: usize, tags: &DataTags, ends: &mut Ends) -> bool
    requires stop { front.stop + LAST_BYTES ≤ length front.held.now }
    requires plain { soh ≤ plain_len front.held.now }
    requires room { front.place + length front.held.now < 2 ^ 64 }
    requires ends { AreEnds (held_at front.place front.held.now) ends.old }
    ensures refuses { result ≡ false → is_ok (text_read tags.now (take (front.entry.stop + LAST_BYTES) front.entry.held.now)) ≡ false }
    ensures ends { AreEnds (held_at front.entry.place front.entry.held.now) ends.new }
{
    let text = Front {
        stop: front.stop + LAST_BYTES,
        ..front
    };
    let Some(body) = body_of(text, soh, ends) else {
        return true;
    };
    match tagged_at(front, body, 35, ends) {
        Some(kind) => may_be_body(front, kind.to + 1, tags, ends),
        None => false,
    }
}

/// The field 8 at the front of a text. No SOH precedes the one at `soh`.
fn begin_of(text: &[u8], soh: usize) -> Option<FixField>
    requires { soh ≤ plain_len text.now }
    ensures { IfSome result (λ begin. FoundAt (tagged_read 8) text.now 0 begin) }
{
    let Some((tag, from)) = tag_at(text, 0) else {
        return None;
    };
    if tag != 8 {
        return None;
    }
    if soh <= from {
        return None;
    }
    if !ends_at(text, soh) {
        return None;
    }
    Some(FixField {
        tag,
        at: 0,
        from,
        to: soh,
    })
}

/// The offset of the body of a text, if its first two fields are as they have to be. No SOH precedes the one at `soh`.
fn body_of(text: Front<'_>, soh: usize, ends: &mut Ends) -> Option<usize>
    requires stop { text.stop ≤ length text.held.now }
    requires room { text.place + length text.held.now < 2 ^ 64 }
    requires plain { soh ≤ plain_len text.held.now }
    requires ends { AreEnds (held_at text.place text.held.now) ends.old }
    ensures opens { IfSome result (λ body. OpensAt (take text.entry.stop text.entry.held.now) body) }
    ensures ends { AreEnds (held_at text.entry.place text.entry.held.now) ends.new }
{
    if soh >= text.stop {
        return None;
    }
    let bytes = &text.held[..text.stop];
    let Some(begin) = begin_of(bytes, soh) else {
        return None;
    };
    let Some(size) = tagged_at(text, begin.to + 1, 9, ends) else {
        return None;
    };
    let Some(number) = number_of(&bytes[size.from..size.to]) else {
        return None;
    };
    let body = size.to + 1;
    if number as usize + LAST_BYTES == text.stop - body {
        Some(body)
    } else {
        None
    }
}

/// Whether the bytes are a field 10 with this sum in three digits.
#[tactic(auto, using(crate::proofs::Judged::same_as_sum))]
fn is_sum_field(last: &[u8], sum: u8) -> bool
    ensures { result ≡ places.is_sum_field last.now sum }
{
    let right = [
        b'1',
        b'0',
        b'=',
        b'0' + sum / 100,
        b'0' + sum / 10 % 10,
        b'0' + sum % 10,
        SOH,
    ];
    last == right.as_slice()
}
