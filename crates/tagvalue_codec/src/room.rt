ghost use Rattle.std.specs.Prelude.{◌≡◌, ◌≤◌, ◌+◌, ◌++◌, [], length, IfOk};
ghost use Rattle.tagvalue_codec.specs.Drafts.{ready_bytes};

use crate::scan::SOH;
use byte_places::place;
use lists::NoMem;
use std::alloc::Global;
use std::marker::Model;

/// The largest limit that a writer takes, in bytes.
pub const TEXT_LIMIT: usize = 16_777_216;

/// Bytes in memory that was allocated at the start.
#[derive(Drop)]
pub(crate) struct Room {
    memory: Vec<u8>,
    len: usize,
}

impl Model for Room {
    ghost use Rattle.std.specs.Prelude.{length, take, ◌≤◌};
    ghost use Rattle.tagvalue_codec.specs.Rooms.{Filled};
    ghost use Rattle.tagvalue_codec.specs.declared.room.TheConstants.{TEXT_LIMIT};

    ghost Value = { Filled };

    ghost view = { λ b. record { bytes = take b.len b.memory.items; limit = length b.memory.items } };

    ghost invariant = { λ b. (b.len ≤ length b.memory.items) × (length b.memory.items ≤ TEXT_LIMIT) };
}

impl Room {
    /// Allocates memory for `limit` bytes.
    pub(crate) fn new(alloc: Global, limit: usize) -> Result<Room, NoMem>
        requires { limit ≤ TEXT_LIMIT }
        ensures empty { IfOk result (λ b. b.bytes ≡ []) }
        ensures limit { IfOk result (λ b. b.limit ≡ limit) }
    {
        let mut memory = Vec::new(alloc);
        memory.resize(limit, 0)?;
        Ok(Room { memory, len: 0 })
    }

    /// The bytes.
    #[inline(always)]
    pub(crate) fn bytes(&self) -> &[u8]
        ensures { result.now ≡ self.now.bytes }
    {
        &self.memory[..self.len]
    }

    /// How many bytes there are.
    #[inline(always)]
    pub(crate) fn len(&self) -> usize
        ensures same { result ≡ length self.now.bytes }
        ensures within { length self.now.bytes ≤ self.now.limit }
        ensures small { self.now.limit ≤ TEXT_LIMIT }
    {
        let _limit = self.memory.len();
        self.len
    }

    /// The most bytes that are allowed.
    #[inline(always)]
    pub(crate) fn limit(&self) -> usize
        ensures same { result ≡ self.now.limit }
        ensures small { self.now.limit ≤ TEXT_LIMIT }
    {
        self.memory.len()
    }

    /// Removes all bytes.
    pub(crate) fn clear(&mut self)
        ensures bytes { self.new.bytes ≡ [] }
        ensures limit { self.new.limit ≡ self.old.limit }
    {
        self.len = 0;
    }

    /// Appends bytes, for which there is room.
    #[inline(always)]
    pub(crate) fn append(&mut self, piece: &[u8])
        requires { length self.old.bytes + length piece.now ≤ self.old.limit }
        ensures bytes { self.new.bytes ≡ self.old.bytes ++ piece.now }
        ensures limit { self.new.limit ≡ self.old.limit }
    {
        self.len = place(&mut self.memory, self.len, piece);
    }

    /// Appends a field, given the bytes of its tag with the `=`.
    #[inline(always)]
    pub(crate) fn append_ready(&mut self, tag: &[u8], value: &[u8])
        requires { length self.old.bytes + length tag.now + length value.now + 1 ≤ self.old.limit }
        ensures bytes { self.new.bytes ≡ self.old.bytes ++ ready_bytes tag.now value.now }
        ensures limit { self.new.limit ≡ self.old.limit }
    {
        let after_tag = place(&mut self.memory, self.len, tag);
        let after_value = place(&mut self.memory, after_tag, value);
        self.len = place(&mut self.memory, after_value, &[SOH]);
    }
}
