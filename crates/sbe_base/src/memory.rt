ghost use Rattle.std.specs.Prelude.{◌≡◌, ◌<◌, ◌+◌, ◌↔◌, Some, [], min, length, take, IfOk, IsErr, is_err};
ghost use Rattle.std.specs.Io.{ReadsAtMost, WritesAtMost};
ghost use Rattle.std.specs.Io.KnownBytes.{ReadConsumes, WriteAppends};
ghost use Rattle.sbe_base.specs.Causes.{HasCause};
ghost use Rattle.sbe_base.specs.Calls.{IsListed, no_calls, one_call};
ghost use Rattle.sbe_base.specs.Memory.{WriteFails};

use crate::calls::Calls;
use crate::{Failed, Sink, Source};
use lists::NoMem;
use std::alloc::Global;
use std::marker::Model;

/// Bytes in memory, given in pieces. The calls whose numbers were given to `new` fail.
#[derive(Drop)]
pub struct MemSource {
    bytes: Vec<u8>,
    at: usize,
    piece: usize,
    calls: Calls,
}

impl Model for MemSource {
    ghost use Rattle.std.specs.Prelude.{◌<◌, ◌≤◌, length, drop};
    ghost use Rattle.sbe_base.specs.Memory.{SourceState};

    ghost Value = { SourceState };

    ghost view = { λ source. record { left = drop source.at source.bytes.items; piece = source.piece; calls = source.calls } };

    ghost invariant = { λ source. (source.at ≤ length source.bytes.items) × (0 < source.piece) };
}

impl MemSource {
    /// A source of these bytes, which gives at most `piece` of them per read. The calls with these numbers, counted
    /// from 1, will fail.
    pub fn new(
        alloc: Global,
        bytes: &[u8],
        piece: usize,
        failing: &[u64],
    ) -> Result<MemSource, NoMem>
        requires { 0 < piece }
        ensures left { IfOk result (λ source. source.left ≡ bytes.now) }
        ensures piece { IfOk result (λ source. source.piece ≡ piece) }
        ensures calls { IfOk result (λ source. source.calls ≡ no_calls failing.now) }
    {
        Ok(MemSource {
            bytes: Vec::from_slice(alloc, bytes)?,
            at: 0,
            piece,
            calls: Calls::new(alloc, failing)?,
        })
    }

    /// The bytes still to come.
    pub fn left(&self) -> &[u8]
        ensures { result.now ≡ self.now.left }
    {
        &self.bytes[self.at..]
    }
}

impl Source for MemSource {
    ghost state = { λ source. record { told = Some source.left; faults = source.calls.faults } };

    fn read(&mut self, buf: &mut [u8]) -> Result<usize, Failed>
        ensures bound { ReadsAtMost result buf.new }
        ensures bytes { ReadConsumes (Some self.old.left) (Some self.new.left) result buf.new }
        ensures cause { HasCause self.old.calls.faults self.new.calls.faults result }

        // It fails exactly at the listed calls; otherwise it gives as much as the piece, the buffer and the bytes
        // allow.
        ensures fails { IsErr result ↔ IsListed self.old.calls }
        ensures taken { IfOk result (λ n. n ≡ min self.old.piece (min (length buf.old) (length self.old.left))) }
        ensures counted { self.new.calls ≡ one_call self.old.calls (is_err result) }
        ensures piece { self.new.piece ≡ self.old.piece }
    {
        if self.calls.count() {
            self.calls.fault();
            return Err(Failed);
        }
        let n = copy_front(&self.bytes[self.at..], self.piece, buf);
        self.at += n;
        Ok(n)
    }
}

/// Copies the first bytes, at most `most` of them.
fn copy_front(from: &[u8], most: usize, buf: &mut [u8]) -> usize
    ensures count { result ≡ min most (min (length buf.old) (length from.now)) }
    ensures bytes { take result buf.new ≡ take result from.now }
{
    let n = most.min(buf.len().min(from.len()));
    buf[..n].copy_from_slice(&from[..n]);
    n
}

/// A buffer of a fixed size that bytes are written to. The calls whose numbers were given to `new` fail.
#[derive(Drop)]
pub struct MemSink {
    bytes: Vec<u8>,
    room: usize,
    calls: Calls,
}

impl Model for MemSink {
    ghost use Rattle.std.specs.Prelude.{◌+◌, ◌≤◌, vec_len, vec_capacity};
    ghost use Rattle.sbe_base.specs.Memory.{SinkState};

    ghost Value = { SinkState };

    ghost view = { λ sink. record { held = sink.bytes.items; room = sink.room; calls = sink.calls } };

    ghost invariant = { λ sink. vec_len sink.bytes + sink.room ≤ vec_capacity sink.bytes };
}

impl MemSink {
    /// A sink with memory for `room` bytes. The calls with these numbers, counted from 1, will fail.
    pub fn new(alloc: Global, room: usize, failing: &[u64]) -> Result<MemSink, NoMem>
        ensures held { IfOk result (λ sink. sink.held ≡ []) }
        ensures room { IfOk result (λ sink. sink.room ≡ room) }
        ensures calls { IfOk result (λ sink. sink.calls ≡ no_calls failing.now) }
    {
        Ok(MemSink {
            bytes: Vec::with_capacity(alloc, room)?,
            room,
            calls: Calls::new(alloc, failing)?,
        })
    }

    /// The bytes written so far.
    pub fn bytes(&self) -> &[u8]
        ensures { result.now ≡ self.now.held }
    {
        self.bytes.as_slice()
    }
}

impl Sink for MemSink {
    ghost state = { λ sink. record { told = Some sink.held; faults = sink.calls.faults } };

    fn write(&mut self, bytes: &[u8]) -> Result<usize, Failed>
        ensures bound { WritesAtMost result bytes.now }
        ensures some { IfOk result (λ n. 0 < length bytes.now → 0 < n) }
        ensures bytes { WriteAppends (Some self.old.held) (Some self.new.held) result bytes.now }
        ensures cause { HasCause self.old.calls.faults self.new.calls.faults result }

        // It fails exactly at the listed calls and when no room is left; otherwise it accepts what fits.
        ensures fails { IsErr result ↔ WriteFails self.old bytes.now }
        ensures taken { IfOk result (λ n. n ≡ min self.old.room (length bytes.now)) }
        ensures room { length self.new.held + self.new.room ≡ length self.old.held + self.old.room }
        ensures counted { self.new.calls ≡ one_call self.old.calls (is_err result) }
    {
        let n = self.room.min(bytes.len());
        let listed = self.calls.count();
        if listed || n == 0 && !bytes.is_empty() {
            self.calls.fault();
            return Err(Failed);
        }
        match self.bytes.extend_from_slice(&bytes[..n]) {
            Ok(()) => {}
            // The memory was allocated when the sink was made.
            Err(_) => unreachable!(),
        }
        self.room -= n;
        Ok(n)
    }
}
