ghost use Rattle.std.specs.Prelude.{◌≡◌, []};

use crate::bits::{big, little};
use byte_places::place;
use byteorder::{ByteOrder, LittleEndian};
use sbe_types::{Order, Prim};
use std::marker::Model;

/// The size of a draft in bytes. A longer body takes the general path.
pub const DRAFT_BYTES: usize = 32_768;

/// How many bytes a word has.
const WORD: usize = 8;

/// Bytes that are written as a body. It allocates nothing.
#[derive(Drop)]
pub struct BodyDraft {
    room: [u8; DRAFT_BYTES],
    len: usize,
}

impl Model for BodyDraft {
    ghost use Rattle.std.specs.Prelude.{◌≡◌, ◌≤◌, ℕ, List, take, length};
    ghost use Rattle.line_draft.specs.declared.draft.TheConstants.{DRAFT_BYTES};

    ghost Value = { List ℕ };

    ghost view = { λ draft. take draft.len draft.room };

    ghost invariant = { λ draft. (length draft.room ≡ DRAFT_BYTES) × (draft.len ≤ DRAFT_BYTES) };
}

impl BodyDraft {
    /// Creates an empty draft.
    pub fn new() -> BodyDraft
        ensures { result ≡ [] }
    {
        BodyDraft {
            room: [0; DRAFT_BYTES],
            len: 0,
        }
    }

    /// The bytes.
    pub fn bytes(&self) -> &[u8]
        ensures { result.now ≡ self.now }
    {
        &self.room[..self.len]
    }

    /// Removes the bytes.
    pub fn clear(&mut self) {
        self.len = 0;
    }

    /// Appends `many` zeros, and returns where they begin, or `None` if there is no room.
    #[inline(always)]
    pub fn zeros(&mut self, many: usize) -> Option<usize> {
        let at = self.len;
        if many > DRAFT_BYTES - at {
            return None;
        }
        self.room[at..at + many].fill(0);
        self.len = at + many;
        Some(at)
    }

    /// Appends bytes, and returns where they begin, or `None` if there is no room.
    #[inline(always)]
    pub fn append(&mut self, bytes: &[u8]) -> Option<usize> {
        let at = self.len;
        if bytes.len() > DRAFT_BYTES - at {
            return None;
        }
        self.len = place(&mut self.room, at, bytes);
        Some(at)
    }

    /// Counts `many` more bytes, which were written after the last one; false if there is no room.
    pub(crate) fn passes(&mut self, many: usize) -> bool {
        if many > DRAFT_BYTES - self.len {
            return false;
        }
        self.len += many;
        true
    }

    /// Writes bytes at an offset; false if they don't fit there.
    #[inline(always)]
    pub fn put(&mut self, at: usize, bytes: &[u8]) -> bool {
        if at > DRAFT_BYTES || bytes.len() > DRAFT_BYTES - at {
            return false;
        }
        self.room[at..at + bytes.len()].copy_from_slice(bytes);
        true
    }

    /// Writes the bytes of a word that a mask has, at an offset, and leaves the others; false if there is no room for eight bytes.
    #[inline(always)]
    pub fn put_masked(&mut self, at: usize, word: u64, mask: u64) -> bool {
        if at > DRAFT_BYTES - WORD {
            return false;
        }
        let place = &mut self.room[at..at + WORD];
        let old = LittleEndian::read_u64(place);
        LittleEndian::write_u64(place, old & !mask | word & mask);
        true
    }

    /// Writes a number of a primitive, given as its bits, at an offset; false if there is no room.
    #[inline(always)]
    pub fn put_bits(&mut self, order: Order, prim: Prim, bits: u64, at: usize) -> bool {
        let wide = prim.width();
        if at > DRAFT_BYTES - wide {
            return false;
        }
        match order {
            Order::Little => little(bits, &mut self.room[at..at + wide]),
            Order::Big => big(bits, &mut self.room[at..at + wide]),
        }
        true
    }
}
