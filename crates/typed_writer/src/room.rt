ghost use Rattle.std.specs.Prelude.{◌≡◌, ◌≤◌, ◌<◌, ◌+◌, ◌++◌, ◌^◌, [], length, OnOk, OnErr, IfOk, IfErr, replicate, true, None, Some};
ghost use Rattle.sbe_types.specs.Numbers.{bytes_of, prim_width};
ghost use Rattle.schema_rules.specs.Ranges.{is_number_of};
ghost use Rattle.sbe_types.specs.Places.{width};
ghost use Rattle.sbe_wire.specs.Misfit.{value_misfit};
ghost use Rattle.schema_facts.specs.InOrder.{IsKindInOrder};
ghost use Rattle.kind_bytes.specs.Members.{followed_by};
ghost use Rattle.typed_writer.specs.Steps.{IsWritten};

use field_bytes::put_num;
use flat_rows::width_of;
use kind_bytes::put_kind;
use lists::NoMem;
use sbe_types::{Kind, Order, Prim, Value};
use std::alloc::Global;
use std::marker::Model;
use thiserror::Error;

/// The buffer has no room for a part of a body.
#[derive(Clone, Copy, Debug, PartialEq, Eq, Drop, Error)]
#[error("{needed} bytes are needed, and the limit is {limit}")]
pub struct Full {
    /// The size of the body with the part, in bytes.
    pub needed: u64,
    /// The most bytes that it may have.
    pub limit: usize,
}

/// Bytes in memory that was allocated at the start.
#[derive(Drop)]
pub(crate) struct Room {
    memory: Vec<u8>,
    len: usize,
}

impl Model for Room {
    ghost use Rattle.std.specs.Prelude.{length, take, ◌≤◌};
    ghost use Rattle.typed_writer.specs.Held.{Filled};

    ghost Value = { Filled };

    ghost view = { λ b. record { bytes = take b.len b.memory.items; limit = length b.memory.items } };

    ghost invariant = { λ b. b.len ≤ length b.memory.items };
}

impl Room {
    /// Allocates memory for `limit` bytes.
    pub(crate) fn new(alloc: Global, limit: usize) -> Result<Room, NoMem>
        ensures empty { IfOk result (λ b. b.bytes ≡ []) }
        ensures limit { IfOk result (λ b. b.limit ≡ limit) }
    {
        let mut memory = Vec::new(alloc);
        memory.resize(limit, 0)?;
        Ok(Room { memory, len: 0 })
    }

    /// The bytes.
    pub(crate) fn bytes(&self) -> &[u8]
        ensures { result.now ≡ self.now.bytes }
    {
        &self.memory[..self.len]
    }

    /// How many bytes there are.
    pub(crate) fn len(&self) -> usize
        ensures same { result ≡ length self.now.bytes }
        ensures within { length self.now.bytes ≤ self.now.limit }
    {
        self.len
    }

    /// The most bytes that are allowed.
    pub(crate) fn limit(&self) -> usize
        ensures { result ≡ self.now.limit }
    {
        self.memory.len()
    }

    /// Checks that there is room for `many` more bytes.
    pub(crate) fn judge(&self, many: u64) -> Result<(), Full>
        requires small { many < 2 ^ 40 }
        ensures ok { OnOk result (length self.now.bytes + many ≤ self.now.limit) }
        ensures full { IfErr result (λ f. (self.now.limit < length self.now.bytes + many) × (f.needed ≡ length self.now.bytes + many) × (f.limit ≡ self.now.limit)) }
    {
        let limit = self.memory.len();
        let rest = limit - self.len;
        if (rest as u64) < many {
            return Err(Full {
                needed: self.len as u64 + many,
                limit,
            });
        }
        Ok(())
    }

    /// Removes all bytes.
    pub(crate) fn clear(&mut self)
        ensures bytes { self.new.bytes ≡ [] }
        ensures limit { self.new.limit ≡ self.old.limit }
    {
        self.len = 0;
    }

    /// Appends bytes, for which there is room.
    pub(crate) fn append(&mut self, piece: &[u8])
        requires { length self.old.bytes + length piece.now ≤ self.old.limit }
        ensures bytes { self.new.bytes ≡ self.old.bytes ++ piece.now }
        ensures limit { self.new.limit ≡ self.old.limit }
    {
        let end = self.len + piece.len();
        self.memory[self.len..end].copy_from_slice(piece);
        self.len = end;
    }

    /// Appends `many` zeros, for which there is room.
    pub(crate) fn zeros(&mut self, many: usize)
        requires { length self.old.bytes + many ≤ self.old.limit }
        ensures bytes { self.new.bytes ≡ self.old.bytes ++ replicate many 0 }
        ensures limit { self.new.limit ≡ self.old.limit }
    {
        let end = self.len + many;
        self.memory[self.len..end].fill(0);
        self.len = end;
    }

    /// Appends a number of a primitive, for which there is room.
    pub(crate) fn number(&mut self, order: Order, prim: Prim, n: i128)
        requires room { length self.old.bytes + prim_width prim ≤ self.old.limit }
        requires number { is_number_of prim n ≡ true }
        ensures bytes { followed_by self.old.bytes (bytes_of order prim n) ≡ Some self.new.bytes }
        ensures len { length self.new.bytes ≡ length self.old.bytes + prim_width prim }
        ensures limit { self.new.limit ≡ self.old.limit }
    {
        let end = self.len + prim.width();
        put_num(order, prim, n, &mut self.memory[self.len..end]);
        self.len = end;
    }

    /// Writes a value that fits its kind over the bytes at offset `place` from `at`.
    pub(crate) fn put(&mut self, at: usize, place: usize, order: Order, kind: &Kind, v: &Value)
        requires ready { IsKindInOrder kind.now }
        requires room { at + place + width kind.now ≤ length self.old.bytes }
        requires fits { value_misfit kind.now v.now ≡ None }
        ensures bytes { IsWritten order kind.now v.now (at + place) self.old.bytes self.new.bytes }
        ensures limit { self.new.limit ≡ self.old.limit }
    {
        let _size = self.len();
        let begin = at + place;
        let end = begin + width_of(kind) as usize;
        put_kind(order, kind, v, &mut self.memory[begin..end]);
    }
}
