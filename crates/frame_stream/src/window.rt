ghost use Rattle.std.specs.Prelude.{◌≡◌, ◌<◌, ◌≤◌, ◌+◌, ◌-◌, ◌↔◌, None, [], length, take, drop, true, false, IfOk, IsSome, IsTrue, OnOk};
ghost use Rattle.open_framing.specs.Lines.{before_end};
ghost use Rattle.frame_stream.specs.Held.{released};
ghost use Rattle.frame_stream.specs.Reading.{DryCause};
ghost use Rattle.frame_stream.specs.Window.{EndCause, FindsEnd, LineEnds, Moves, Reads, let_go_of, none_held};

use crate::reading::{Dry, read_within};
use memchr::memchr;
use open_framing::LINE_END;
use sbe_base::{NoMem, Source};
use std::alloc::Global;
use std::marker::Model;
use std::simd::Simd;

/// How many bytes are copied of a frame that has at most that many.
const SHORT: usize = 32;

/// How many bytes one copy moves of a longer frame.
const HALF: usize = 64;

/// How many bytes are copied of a frame that has more than [`SHORT`] and at most that many.
const LONG: usize = 2 * HALF;

/// Why no line end is held.
#[derive(Clone, Copy, Debug, PartialEq, Eq)]
pub(crate) enum NoEnd {
    /// No more bytes came.
    Dry(Dry),
    /// The buffer is full.
    Full,
}

/// Bytes in a buffer, from a source that may give at most a limited number. Their position in the buffer doesn't show.
#[derive(Drop)]
pub struct Window {
    buffer: Vec<u8>,
    start: usize,
    end: usize,
    taken: u64,
    limit: u64,
}

impl Model for Window {
    ghost use Rattle.std.specs.Prelude.{◌≤◌, ◌-◌, length, take, drop};
    ghost use Rattle.frame_stream.specs.Window.{WindowState};

    ghost Value = { WindowState };

    ghost view = { λ w. record { held = record { bytes = drop w.start (take w.end w.buffer.items); size = length w.buffer.items; taken = w.taken; limit = w.limit }; free = length w.buffer.items - w.end } };

    ghost invariant = { λ w. (w.start ≤ w.end) × (w.end ≤ length w.buffer.items) × (w.taken ≤ w.limit) };
}

impl Window {
    /// Creates an empty window with room for `size` bytes, which may take at most `limit` bytes in all.
    pub fn new(alloc: Global, size: usize, limit: u64) -> Result<Window, NoMem>
        ensures { IfOk result (λ w. w.held ≡ none_held size limit) }
    {
        let mut buffer = Vec::with_capacity(alloc, size)?;
        buffer.resize(size, 0)?;
        Ok(Window {
            buffer,
            start: 0,
            end: 0,
            taken: 0,
            limit,
        })
    }

    /// The bytes that are held.
    pub fn as_slice(&self) -> &[u8]
        ensures { result.now ≡ self.now.held.bytes }
    {
        &self.buffer[self.start..self.end]
    }

    /// How many bytes were taken in all.
    pub fn taken(&self) -> u64
        ensures { result ≡ self.now.held.taken }
    {
        self.taken
    }

    /// How many bytes are held.
    pub fn len(&self) -> usize
        ensures { result ≡ length self.now.held.bytes }
    {
        self.end - self.start
    }

    /// The bytes that are held fit the buffer, and no more bytes were taken than the limit allows.
    pub fn is_within(&self)
        ensures fits { length self.now.held.bytes ≤ self.now.held.size }
        ensures taken { self.now.held.taken ≤ self.now.held.limit }
    {
        let _taken = self.taken;
    }

    /// The size of the buffer.
    pub fn size(&self) -> usize
        ensures { result ≡ self.now.held.size }
    {
        self.buffer.len()
    }

    /// Releases all bytes.
    pub(crate) fn let_go_all(&mut self)
        ensures { self.new.held ≡ released true self.old.held }
    {
        self.start = 0;
        self.end = 0;
    }

    /// Releases the first bytes, and returns the position of the next line end. Reads only if no line end is held.
    pub(crate) fn next_end<I: Source>(
        &mut self,
        input: &mut I,
        front: usize,
    ) -> Result<usize, NoEnd>
        requires { front ≤ length self.old.held.bytes }
        ensures ends { LineEnds (let_go_of front self.old.held) self.new.held (I.state input.old).told (I.state input.new).told result }
        ensures ahead { IsSome (before_end (drop front self.old.held.bytes)) → input.new ≡ input.old }
        ensures cause { EndCause (I.state input.old).faults (I.state input.new).faults result }
    {
        self.release(front);
        self.is_within();
        match find_end(self.as_slice(), 0) {
            Some(i) => Ok(i),
            None => self.read_end(input),
        }
    }

    /// Releases the first `n` bytes.
    pub fn release(&mut self, n: usize)
        requires { n ≤ length self.old.held.bytes }
        ensures { self.new.held ≡ let_go_of n self.old.held }
    {
        let _taken = self.taken;
        self.start += n;
    }

    /// Reads until a line end is held, and returns its position.
    fn read_end<I: Source>(&mut self, input: &mut I) -> Result<usize, NoEnd>
        requires none { before_end self.old.held.bytes ≡ None }
        ensures ends { LineEnds self.old.held self.new.held (I.state input.old).told (I.state input.new).told result }
        ensures cause { EndCause (I.state input.old).faults (I.state input.new).faults result }
    {
        let size = self.size();
        self.is_within();
        while self.len() < size {
            let seen = self.len();
            match self.more(input, size) {
                Ok(()) => {}
                Err(dry) => return Err(NoEnd::Dry(dry)),
            }
            match find_end(self.as_slice(), seen) {
                Some(i) => return Ok(i),
                None => {}
            }
        }
        Err(NoEnd::Full)
    }

    /// Reads once, so that at most `want` bytes are held.
    pub fn more<I: Source>(&mut self, input: &mut I, want: usize) -> Result<(), Dry>
        requires less { length self.old.held.bytes < want }
        requires room { want ≤ self.old.held.size }
        ensures most { OnOk result (length self.new.held.bytes ≤ want) }
        ensures reads { Reads self.old.held self.new.held (I.state input.old).told (I.state input.new).told result }
        ensures cause { DryCause (I.state input.old).faults (I.state input.new).faults result }
    {
        if self.end == self.buffer.len() {
            self.compact();
            return self.more_behind(input, want);
        }
        self.more_behind(input, want)
    }

    /// Takes `n` bytes of what the source has read ahead, if they are there and may be taken. Returns false if it took
    /// none.
    pub(crate) fn copy_ahead<I: Source>(&mut self, input: &mut I, n: usize) -> bool
        requires none { self.old.held.bytes ≡ [] }
        requires room { n ≤ self.old.held.size }
        ensures moves { IsTrue result → Moves self.old.held self.new.held (I.state input.old).told (I.state input.new).told [] }
        ensures bytes { IsTrue result → (n ≤ length (I.read_ahead input.old)) × (self.new.held.bytes ≡ take n (I.read_ahead input.old)) }
        ensures none { result ≡ false → (self.new.held ≡ self.old.held) × (input.new ≡ input.old) }
        ensures cause { (I.state input.new).faults ≡ (I.state input.old).faults }
    {
        let ahead = input.ahead();
        if ahead.len() < n || self.limit - self.taken < n as u64 {
            return false;
        }
        copy_front(self.buffer.as_mut_slice(), ahead, n);
        if !input.pass(n) {
            return false;
        }
        self.start = 0;
        self.end = n;
        self.taken += n as u64;
        true
    }

    /// Moves the bytes to the front of the buffer. Nothing else changes for a caller.
    fn compact(&mut self)
        ensures held { self.new.held ≡ self.old.held }
        ensures free { self.new.free ≡ self.old.held.size - length self.old.held.bytes }
    {
        let (start, end) = (self.start, self.end);
        move_front(self.buffer.as_mut_slice(), start, end);
        self.start = 0;
        self.end = end - start;
    }

    /// Reads once to the place after the bytes.
    fn more_behind<I: Source>(&mut self, input: &mut I, want: usize) -> Result<(), Dry>
        requires free { 0 < self.old.free }
        requires less { length self.old.held.bytes < want }
        ensures most { OnOk result (length self.new.held.bytes ≤ want) }
        ensures reads { Reads self.old.held self.new.held (I.state input.old).told (I.state input.new).told result }
        ensures cause { DryCause (I.state input.old).faults (I.state input.new).faults result }
    {
        let room = self.limit - self.taken;
        let free = self.buffer.len() - self.end;
        let most = room.min(free.min(want - self.len()) as u64) as usize;
        match read_within(input, self.buffer.as_mut_slice(), self.end, most) {
            Ok(n) => {
                self.end += n;
                self.taken += n as u64;
                Ok(())
            }
            Err(dry) => Err(dry),
        }
    }
}

/// The position of the first line end. The first `plain` bytes have none.
fn find_end(bytes: &[u8], plain: usize) -> Option<usize>
    requires within { plain ≤ length bytes.now }
    requires none { before_end (take plain bytes.now) ≡ None }
    ensures { FindsEnd bytes.now result }
{
    match memchr(LINE_END, &bytes[plain..]) {
        Some(i) => Some(plain + i),
        None => None,
    }
}

/// Moves a part of a buffer to its front.
fn move_front(buf: &mut [u8], start: usize, end: usize)
    requires low { start ≤ end }
    requires high { end ≤ length buf.old }
    ensures size { length buf.new ≡ length buf.old }
    ensures moved { take (end - start) buf.new ≡ drop start (take end buf.old) }
{
    buf.copy_within(start..end, 0);
}

/// Copies the first `n` bytes of a slice to the front of a buffer. The bytes after them in the buffer may change: a few
/// bytes are copied in blocks of a fixed size, so that the course of the copy doesn't depend on their exact number.
#[inline(always)]
fn copy_front(buf: &mut [u8], from: &[u8], n: usize)
    requires there { n ≤ length from.now }
    requires room { n ≤ length buf.old }
    ensures size { length buf.new ≡ length buf.old }
    ensures copied { take n buf.new ≡ take n from.now }
{
    if n <= SHORT && has_both(buf, from, SHORT) {
        copy_block::<SHORT>(buf, from, 0);
    } else if n <= LONG && has_both(buf, from, LONG) {
        copy_block::<HALF>(buf, from, 0);
        copy_block::<HALF>(buf, from, HALF);
    } else {
        buf[..n].copy_from_slice(&from[..n]);
    }
}

/// Whether both slices have at least `n` bytes.
#[inline(always)]
fn has_both(buf: &[u8], from: &[u8], n: usize) -> bool
    ensures { IsTrue result ↔ ((n ≤ length buf.now) × (n ≤ length from.now)) }
{
    buf.len() >= n && from.len() >= n
}

/// Copies `N` bytes of a slice, from offset `at` on, to the same offset of a buffer that already holds the bytes before
/// it.
#[inline(always)]
fn copy_block<const N: usize>(buf: &mut [u8], from: &[u8], at: usize)
    requires there { at + N ≤ length from.now }
    requires room { at + N ≤ length buf.old }
    requires before { take at buf.old ≡ take at from.now }
    ensures size { length buf.new ≡ length buf.old }
    ensures copied { take (at + N) buf.new ≡ take (at + N) from.now }
{
    Simd::<u8, N>::from_slice(&from[at..]).copy_to_slice(&mut buf[at..]);
}
