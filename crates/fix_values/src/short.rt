ghost use Rattle.std.specs.Prelude.{◌≡◌, ◌∷◌, ◌++◌, [], ◌<◌, ◌≤◌, ◌+◌, ◌==◌, length};

use std::marker::Model;

/// How many bytes a short text may have. The longest one that is written has 127: sixty-four codes of one byte,
/// separated by spaces.
pub const ROOM: usize = 128;

/// A text of up to [`ROOM`] bytes, without allocation.
#[derive(Drop)]
pub struct Short {
    bytes: [u8; ROOM],
    len: usize,
}

impl Model for Short {
    ghost use Rattle.std.specs.Prelude.{List, ℕ, take, ◌≤◌, ◌≡◌, length};
    ghost use Rattle.fix_values.specs.declared.short.TheConstants.{ROOM};

    ghost Value = { List ℕ };

    ghost view = { λ short. take short.len short.bytes };

    ghost invariant = { λ short. (short.len ≤ ROOM) × (length short.bytes ≡ ROOM) };
}

impl Short {
    /// Creates an empty text.
    pub fn new() -> Short
        ensures { result ≡ [] }
    {
        Short {
            bytes: [0; ROOM],
            len: 0,
        }
    }

    /// Its bytes.
    pub fn bytes(&self) -> &[u8]
        ensures { result.now ≡ self.now }
    {
        &self.bytes[..self.len]
    }

    /// The number of its bytes.
    pub fn len(&self) -> usize
        ensures { result ≡ length self.now }
    {
        self.len
    }

    /// Whether it is empty.
    pub fn is_empty(&self) -> bool
        ensures { result ≡ (length self.now == 0) }
    {
        self.len == 0
    }

    /// Empties the text.
    pub fn clear(&mut self)
        ensures { self.new ≡ [] }
    {
        self.len = 0;
    }

    /// Appends one byte.
    pub fn push(&mut self, byte: u8)
        requires { length self.old < ROOM }
        ensures { self.new ≡ self.old ++ byte ∷ [] }
    {
        self.bytes[self.len] = byte;
        self.len += 1;
    }

    /// Appends bytes.
    pub fn extend(&mut self, bytes: &[u8])
        requires { length self.old + length bytes.now ≤ ROOM }
        ensures { self.new ≡ self.old ++ bytes.now }
    {
        let end = self.len + bytes.len();
        self.bytes[self.len..end].copy_from_slice(bytes);
        self.len = end;
    }
}
