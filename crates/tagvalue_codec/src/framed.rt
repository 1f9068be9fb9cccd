ghost use Rattle.std.specs.Prelude.{◌≡◌, ◌≤◌, ◌<◌, ◌+◌, ◌-◌, ◌%◌, ◌++◌, ◌∷◌, [], length, take, drop, sum, decimal, IfOk};
ghost use Rattle.std.specs.Borrow.{sem};
ghost use Rattle.tagvalue_codec.specs.Fields.{soh, field_bytes};
ghost use Rattle.tagvalue_codec.specs.Drafts.{ready_bytes};
ghost use Rattle.tagvalue_codec.specs.Rooms.{text_from, sum_of_bytes, IsPutBefore};
ghost use Rattle.tagvalue_codec.specs.Lending.{BodyRests};
ghost use Rattle.tagvalue_codec.specs.declared.room.TheConstants.{TEXT_LIMIT};
ghost use Rattle.tagvalue_codec.specs.declared.framed.TheConstants.{BEFORE, SPARE, WIDE};

use crate::digits::{digit_count, three_digits};
use crate::room::TEXT_LIMIT;
use crate::scan::{SOH, sum_of};
use byte_places::{place, place_front, place_within, put, put_front};
use itoa::Buffer;
use lists::NoMem;
use std::alloc::Global;
use std::marker::Model;

/// How many bytes are summed at once.
pub(crate) const WIDE: usize = 32;

/// Room for six bytes, a number of eight digits and SOH, before a body.
pub(crate) const BEFORE: usize = 15;

/// How much longer the memory is than the longest text.
pub(crate) const SPARE: usize = 96;

/// A body in memory that was allocated at the start, with room before and after it for the rest of its text.
#[derive(Drop)]
pub(crate) struct Framed {
    memory: Vec<u8>,
    /// Where the whole text begins.
    from: usize,
    /// Where the body begins.
    start: usize,
    /// Where the body ends.
    len: usize,
    /// Where the whole text ends.
    to: usize,
}

impl Model for Framed {
    ghost use Rattle.std.specs.Prelude.{length, take, drop, ◌≤◌, ◌+◌};
    ghost use Rattle.tagvalue_codec.specs.Rooms.{Around};
    ghost use Rattle.tagvalue_codec.specs.declared.room.TheConstants.{TEXT_LIMIT};
    ghost use Rattle.tagvalue_codec.specs.declared.framed.TheConstants.{SPARE};

    ghost Value = { Around };

    ghost view = { λ b. record { bytes = drop b.start (take b.len b.memory.items); start = b.start; whole = drop b.from (take b.to b.memory.items); ahead = b.from; size = length b.memory.items } };

    ghost invariant = { λ b. (b.start ≤ b.len) × (b.len ≤ length b.memory.items) × (b.from ≤ b.start) × (b.from ≤ b.to) × (b.to ≤ length b.memory.items) × (length b.memory.items ≤ TEXT_LIMIT + SPARE) };
}

impl Framed {
    /// Allocates memory for a text of at most `limit` bytes.
    pub(crate) fn new(alloc: Global, limit: usize) -> Result<Framed, NoMem>
        requires { limit ≤ TEXT_LIMIT }
        ensures empty { IfOk result (λ b. b.bytes ≡ []) }
        ensures size { IfOk result (λ b. b.size ≡ limit + SPARE) }
    {
        let mut memory = Vec::new(alloc);
        memory.resize(limit + SPARE, 0)?;
        Ok(Framed {
            memory,
            from: 0,
            start: 0,
            len: 0,
            to: 0,
        })
    }

    /// The whole text.
    #[inline(always)]
    pub(crate) fn whole(&self) -> &[u8]
        ensures { result.now ≡ self.now.whole }
    {
        &self.memory[self.from..self.to]
    }

    /// How many bytes the body has.
    #[inline(always)]
    pub(crate) fn len(&self) -> usize
        ensures same { result ≡ length self.now.bytes }
        ensures within { self.now.start + length self.now.bytes ≤ self.now.size }
        ensures small { self.now.size ≤ TEXT_LIMIT + SPARE }
    {
        let _size = self.memory.len();
        self.len - self.start
    }

    /// Where the body ends.
    #[inline(always)]
    pub(crate) fn end(&self) -> usize
        ensures same { result ≡ self.now.start + length self.now.bytes }
        ensures small { self.now.size ≤ TEXT_LIMIT + SPARE }
        ensures within { self.now.start + length self.now.bytes ≤ self.now.size }
    {
        let _size = self.memory.len();
        self.len
    }

    /// Removes all bytes, and leaves room for `head` bytes and what else precedes the body.
    pub(crate) fn clear(&mut self, head: usize)
        requires { head + BEFORE ≤ self.old.size }
        ensures bytes { self.new.bytes ≡ [] }
        ensures start { self.new.start ≡ head + BEFORE }
        ensures size { self.new.size ≡ self.old.size }
    {
        let _size = self.memory.len();
        let start = head + BEFORE;
        self.from = start;
        self.start = start;
        self.len = start;
        self.to = start;
    }

    /// Appends bytes to the body, for which there is room.
    #[inline(always)]
    pub(crate) fn append(&mut self, piece: &[u8])
        requires { self.old.start + length self.old.bytes + length piece.now ≤ self.old.size }
        ensures bytes { self.new.bytes ≡ self.old.bytes ++ piece.now }
        ensures start { self.new.start ≡ self.old.start }
        ensures size { self.new.size ≡ self.old.size }
    {
        self.len = place(&mut self.memory, self.len, piece);
    }

    /// Appends a field, given the bytes of its tag with the `=`.
    #[inline(always)]
    pub(crate) fn append_ready(&mut self, tag: &[u8], value: &[u8])
        requires { self.old.start + length self.old.bytes + length tag.now + length value.now + 1 ≤ self.old.size }
        ensures bytes { self.new.bytes ≡ self.old.bytes ++ ready_bytes tag.now value.now }
        ensures start { self.new.start ≡ self.old.start }
        ensures size { self.new.size ≡ self.old.size }
    {
        let after_tag = place(&mut self.memory, self.len, tag);
        let after_value = place(&mut self.memory, after_tag, value);
        self.len = place(&mut self.memory, after_value, &[SOH]);
    }

    /// Appends a field, given an array that begins with the bytes of its tag with the `=`. Sixteen bytes of the array
    /// are copied, for which there is room.
    #[inline(always)]
    pub(crate) fn append_led(&mut self, lead: &[u8], used: usize, value: &[u8])
        requires lead { 16 ≤ length lead.now }
        requires used { used ≤ 16 }
        requires room { self.old.start + length self.old.bytes + length value.now + 17 ≤ self.old.size }
        ensures bytes { self.new.bytes ≡ self.old.bytes ++ ready_bytes (take used lead.now) value.now }
        ensures start { self.new.start ≡ self.old.start }
        ensures size { self.new.size ≡ self.old.size }
    {
        let after_tag = place_within::<16>(&mut self.memory, self.len, lead, used);
        let after_value = place(&mut self.memory, after_tag, value);
        self.len = place(&mut self.memory, after_value, &[SOH]);
    }

    /// The same, given an array that begins with the value too. `N` bytes of it are copied, for which there is room.
    #[inline(always)]
    pub(crate) fn append_front<const N: usize>(
        &mut self,
        lead: &[u8],
        used: usize,
        value: &[u8],
        count: usize,
    )
        requires lead { 16 ≤ length lead.now }
        requires used { used ≤ 16 }
        requires value { N ≤ length value.now }
        requires count { count ≤ N }
        requires room { self.old.start + length self.old.bytes + N + 17 ≤ self.old.size }
        ensures bytes { self.new.bytes ≡ self.old.bytes ++ ready_bytes (take used lead.now) (take count value.now) }
        ensures start { self.new.start ≡ self.old.start }
        ensures size { self.new.size ≡ self.old.size }
    {
        let after_tag = place_within::<16>(&mut self.memory, self.len, lead, used);
        let after_value = place_within::<N>(&mut self.memory, after_tag, value, count);
        self.len = place(&mut self.memory, after_value, &[SOH]);
    }

    /// Appends a field, given the digits of its tag.
    #[inline(always)]
    pub(crate) fn append_field(&mut self, digits: &[u8], value: &[u8])
        requires { self.old.start + length self.old.bytes + length digits.now + length value.now + 2 ≤ self.old.size }
        ensures bytes { self.new.bytes ≡ self.old.bytes ++ ready_bytes (digits.now ++ 61 ∷ []) value.now }
        ensures start { self.new.start ≡ self.old.start }
        ensures size { self.new.size ≡ self.old.size }
    {
        self.append(digits);
        self.append(b"=");
        self.append(value);
        self.append(&[SOH]);
    }

    /// Completes the text: puts a head and the length of the body before the body, and the last field after it.
    pub(crate) fn enclose(&mut self, head: &[u8])
        requires room { length head.now + BEFORE ≤ self.old.start }
        requires few { length self.old.bytes ≤ TEXT_LIMIT }
        requires spare { self.old.start + length self.old.bytes + WIDE ≤ self.old.size }
        ensures bytes { self.new.bytes ≡ self.old.bytes }
        ensures whole { self.new.whole ≡ text_from head.now self.old.bytes }
        ensures ahead { 6 ≤ self.new.ahead }
        ensures size { self.new.size ≡ self.old.size }
    {
        let from = put_before(&mut self.memory, self.start, head, self.len - self.start);
        let sum = sum_between(&mut self.memory, from, self.len);
        put_last(&mut self.memory, self.len, sum);
        self.from = from;
        self.to = self.len + 7;
    }

    /// The whole text, with six bytes before it.
    #[inline(always)]
    pub(crate) fn behind(&mut self, before: &[u8; 6]) -> &[u8]
        requires { 6 ≤ self.old.ahead }
        ensures* rests { sem 𝓛 (BodyRests self.entry) }
        ensures bytes { result.now ≡ before.now ++ self.old.whole }
    {
        let from = put_six(&mut self.memory, self.from, before);
        &self.memory[from..self.to]
    }
}

/// Puts six bytes before an offset. Returns where they begin.
#[inline(always)]
fn put_six(memory: &mut [u8], at: usize, six: &[u8]) -> usize
    requires long { length six.now ≡ 6 }
    requires room { 6 ≤ at }
    requires within { at ≤ length memory.old }
    ensures { IsPutBefore memory.old memory.new at six.now result }
{
    let from = at - 6;
    put_front::<4>(memory, from, six);
    put_front::<2>(memory, from + 4, &six[4..]);
    from
}

/// Puts a head, the length of a body and SOH before an offset. Returns where the head begins.
#[inline(always)]
fn put_before(memory: &mut [u8], at: usize, head: &[u8], count: usize) -> usize
    requires room { length head.now + BEFORE ≤ at }
    requires within { at ≤ length memory.old }
    requires few { count ≤ TEXT_LIMIT }
    ensures put { IsPutBefore memory.old memory.new at (head.now ++ (decimal count ++ soh ∷ [])) result }
    ensures room { 6 ≤ result }
{
    let number_at = put_count(memory, at, count);
    let from = number_at - head.len();
    put(memory, from, head);
    from
}

/// Puts a number and SOH before an offset. Returns where the number begins.
#[inline(always)]
fn put_count(memory: &mut [u8], at: usize, count: usize) -> usize
    requires room { BEFORE ≤ at }
    requires within { at ≤ length memory.old }
    requires few { count ≤ TEXT_LIMIT }
    ensures put { IsPutBefore memory.old memory.new at (decimal count ++ soh ∷ []) result }
    ensures short { at ≤ result + 9 }
{
    if count < 1000 {
        put_few(memory, at, count)
    } else {
        put_many(memory, at, count)
    }
}

/// The same for a number of at most three digits: always writes four bytes.
#[inline(always)]
fn put_few(memory: &mut [u8], at: usize, count: usize) -> usize
    requires room { BEFORE ≤ at }
    requires within { at ≤ length memory.old }
    requires few { count < 1000 }
    ensures put { IsPutBefore memory.old memory.new at (decimal count ++ soh ∷ []) result }
    ensures short { at ≤ result + 9 }
{
    let digits = digit_count(count as u64) as usize;
    put_front::<4>(memory, at - 4, &three_digits(count));
    at - 1 - digits
}

/// The same for a number of any digits.
#[inline(never)]
fn put_many(memory: &mut [u8], at: usize, count: usize) -> usize
    requires room { BEFORE ≤ at }
    requires within { at ≤ length memory.old }
    requires few { count ≤ TEXT_LIMIT }
    ensures put { IsPutBefore memory.old memory.new at (decimal count ++ soh ∷ []) result }
    ensures short { at ≤ result + 9 }
{
    let mut buffer = Buffer::new();
    let digits = buffer.format(count).as_bytes();
    let from = at - 1 - digits.len();
    let end = put(memory, from, digits);
    put(memory, end, &[SOH]);
    from
}

/// The sum of the bytes between two offsets modulo 256. Clears bytes after them, so that a whole number of blocks is
/// summed.
#[inline(always)]
fn sum_between(memory: &mut [u8], from: usize, to: usize) -> u8
    requires order { from ≤ to }
    requires room { to + WIDE ≤ length memory.old }
    ensures sum { result ≡ sum (drop from (take to memory.old)) % 256 }
    ensures kept { take to memory.new ≡ take to memory.old }
    ensures long { length memory.new ≡ length memory.old }
{
    place_front::<WIDE>(memory, to, &[0; WIDE]);
    let wide = (to - from + WIDE - 1) / WIDE * WIDE;
    sum_of(&memory[from..from + wide])
}

/// Puts the last field after the bytes before an offset.
#[inline(always)]
fn put_last(memory: &mut [u8], at: usize, sum: u8)
    requires { at + 8 ≤ length memory.old }
    ensures last { take (at + 7) memory.new ≡ take at memory.old ++ field_bytes (sum_of_bytes sum) }
    ensures long { length memory.new ≡ length memory.old }
{
    place_front::<8>(memory, at, &last_field(sum));
}

/// The bytes of the last field, and one more.
#[inline(always)]
fn last_field(sum: u8) -> [u8; 8]
    ensures { result ≡ field_bytes (sum_of_bytes sum) ++ 0 ∷ [] }
{
    [
        b'1',
        b'0',
        b'=',
        b'0' + sum / 100,
        b'0' + sum / 10 % 10,
        b'0' + sum % 10,
        SOH,
        0,
    ]
}
