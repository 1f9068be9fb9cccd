ghost use Rattle.std.specs.Prelude.{◌≡◌, ◌+◌, ◌≤◌, ◌++◌, [], codes, length, take, drop};
ghost use Rattle.printers.specs.declared.chunk.TheConstants.{CHUNK_BYTES};
ghost use Rattle.printers.specs.Chunks.{nothing_gathered};

use byte_places::{place, place_front};
use std::marker::Model;

/// How many bytes a chunk can gather.
pub const CHUNK_BYTES: usize = 1_024;

/// Bytes waiting to be written, and whether a write has failed. It allocates nothing.
#[derive(Drop)]
pub struct Chunk {
    room: [u8; CHUNK_BYTES],
    len: usize,
    failed: bool,
}

impl Model for Chunk {
    ghost use Rattle.std.specs.Prelude.{◌≡◌, ◌≤◌, take, length};
    ghost use Rattle.printers.specs.declared.chunk.TheConstants.{CHUNK_BYTES};
    ghost use Rattle.printers.specs.Chunks.{Gathered};

    ghost Value = { Gathered };

    ghost view = { λ chunk. record { bytes = take chunk.len chunk.room; failed = chunk.failed } };

    ghost invariant = { λ chunk. (length chunk.room ≡ CHUNK_BYTES) × (chunk.len ≤ CHUNK_BYTES) };
}

impl Chunk {
    /// Creates an empty chunk.
    pub fn new() -> Chunk
        ensures { result ≡ nothing_gathered }
    {
        Chunk {
            room: [0; CHUNK_BYTES],
            len: 0,
            failed: false,
        }
    }

    /// The number of bytes it holds.
    #[inline(always)]
    pub(crate) fn len(&self) -> usize
        ensures count { result ≡ length self.now.bytes }
        ensures fits { result ≤ CHUNK_BYTES }
    {
        self.len
    }

    /// Whether a write has failed.
    #[inline(always)]
    pub(crate) fn has_failed(&self) -> bool
        ensures { result ≡ self.now.failed }
    {
        self.failed
    }

    /// Adds bytes, for which there is room.
    #[inline(always)]
    pub(crate) fn add(&mut self, bytes: &[u8])
        requires { length self.old.bytes + length bytes.now ≤ CHUNK_BYTES }
        ensures { self.new ≡ record self.old { bytes = self.old.bytes ++ bytes.now } }
    {
        self.len = place(&mut self.room, self.len, bytes);
    }

    /// The bytes gathered so far.
    pub(crate) fn as_slice(&self) -> &[u8]
        ensures { result.now ≡ self.now.bytes }
    {
        &self.room[..self.len]
    }

    /// Empties the chunk.
    pub(crate) fn clear(&mut self, failed: bool)
        ensures { self.new ≡ record { bytes = []; failed = failed } }
    {
        self.len = 0;
        self.failed = failed;
    }

    /// Adds `run` bytes of `text` from `start` on. Always copies `N` bytes, so there is no branch on `run`; the length
    /// grows by `run` only.
    #[inline(always)]
    pub(crate) fn add_lead<const N: usize>(&mut self, text: &[u8], start: usize, run: usize)
        requires run { run ≤ N }
        requires enough { start + N ≤ length text.now }
        requires room { length self.old.bytes + N ≤ CHUNK_BYTES }
        ensures { self.new ≡ record self.old { bytes = self.old.bytes ++ take run (drop start text.now) } }
    {
        let at = self.len;
        place_front::<N>(&mut self.room, at, &text[start..]);
        self.len = at + run;
    }

    /// Adds the first `run` bytes of a field between quotes. The whole field is copied and needs room, so the copy
    /// depends on the field's size and not on the text in it.
    #[inline(always)]
    pub(crate) fn add_front_in_quotes(&mut self, field: &[u8], run: usize)
        requires run { run ≤ length field.now }
        requires room { length self.old.bytes + (length field.now + 2) ≤ CHUNK_BYTES }
        ensures { self.new ≡ record self.old { bytes = self.old.bytes ++ (codes "\"" ++ (take run field.now ++ codes "\"")) } }
    {
        let at = place(&mut self.room, self.len, b"\"");
        place(&mut self.room, at, field);
        self.len = place(&mut self.room, at + run, b"\"");
    }

    /// Adds the first `run` bytes of `front`, all of which is copied, and then `after` and `last`. There is room for
    /// all of it.
    #[inline(always)]
    pub(crate) fn add_front(&mut self, front: &[u8], run: usize, after: &[u8], last: &[u8])
        requires run { run ≤ length front.now }
        requires room { length self.old.bytes + (length front.now + (length after.now + length last.now)) ≤ CHUNK_BYTES }
        ensures { self.new ≡ record self.old { bytes = self.old.bytes ++ (take run front.now ++ (after.now ++ last.now)) } }
    {
        let at = self.len;
        place(&mut self.room, at, front);
        let then = place(&mut self.room, at + run, after);
        self.len = place(&mut self.room, then, last);
    }

    /// Adds bytes between two others. There is room for all of them.
    #[inline(always)]
    #[tactic(auto, using(crate::proofs::Gathered::three_placed))]
    pub(crate) fn add_between(&mut self, before: &[u8], bytes: &[u8], after: &[u8])
        requires { length self.old.bytes + (length before.now + (length bytes.now + length after.now)) ≤ CHUNK_BYTES }
        ensures { self.new ≡ record self.old { bytes = self.old.bytes ++ (before.now ++ (bytes.now ++ after.now)) } }
    {
        let at = place(&mut self.room, self.len, before);
        let then = place(&mut self.room, at, bytes);
        self.len = place(&mut self.room, then, after);
    }
}
