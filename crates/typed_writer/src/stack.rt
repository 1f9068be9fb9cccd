ghost use Rattle.std.specs.Prelude.{◌≡◌, ◌≤◌, ◌<◌, ◌∷◌, [], length, drop, slice_get, IfOk};

use lists::NoMem;
use std::alloc::Global;
use std::marker::Model;

/// The most writers that are open at once: that of a root, and two for each of the groups around an entry.
pub const OPEN_LIMIT: usize = 13;

/// An open writer.
#[derive(Clone, Copy, Debug, PartialEq, Eq)]
pub enum Frame {
    /// The fields of a level's block are being set.
    Fields {
        /// The number of the level.
        level: usize,
    },
    /// The groups and data of a level are being appended.
    Tail {
        /// The number of the level.
        level: usize,
        /// How many of its groups and data parts were appended.
        next: usize,
    },
    /// The entries of a group are being appended.
    Entries {
        /// The number of their level.
        level: usize,
        /// How many are still to come.
        left: u32,
    },
}

/// The open writers, in memory that was allocated at the start.
#[derive(Drop)]
pub(crate) struct Stack {
    /// The innermost one is at `top`, and the others follow it.
    memory: Vec<Frame>,
    top: usize,
}

impl Model for Stack {
    ghost use Rattle.std.specs.Prelude.{length, drop, List, ◌≤◌, ◌≡◌};
    ghost use Rattle.typed_writer.specs.declared.stack.Frame.{Frame};
    ghost use Rattle.typed_writer.specs.declared.stack.TheConstants.{OPEN_LIMIT};

    ghost Value = { List Frame };

    ghost view = { λ s. drop s.top s.memory.items };

    ghost invariant = { λ s. (s.top ≤ length s.memory.items) × (length s.memory.items ≡ OPEN_LIMIT) };
}

impl Stack {
    /// Allocates memory for as many as can be open.
    pub(crate) fn new(alloc: Global) -> Result<Stack, NoMem>
        ensures { IfOk result (λ s. s ≡ []) }
    {
        let mut memory = Vec::new(alloc);
        memory.resize(OPEN_LIMIT, Frame::Fields { level: 0 })?;
        Ok(Stack {
            memory,
            top: OPEN_LIMIT,
        })
    }

    /// The number of open writers.
    pub(crate) fn len(&self) -> usize
        ensures same { result ≡ length self.now }
        ensures few { length self.now ≤ OPEN_LIMIT }
    {
        self.memory.len() - self.top
    }

    /// The innermost writer.
    pub(crate) fn top(&self) -> Option<Frame>
        ensures { result ≡ slice_get self.now 0 }
    {
        if self.top == self.memory.len() {
            return None;
        }
        Some(self.memory[self.top])
    }

    /// Closes all writers.
    pub(crate) fn clear(&mut self)
        ensures { self.new ≡ [] }
    {
        self.top = self.memory.len();
    }

    /// Opens one more writer.
    pub(crate) fn push(&mut self, frame: Frame)
        requires { length self.old < OPEN_LIMIT }
        ensures { self.new ≡ frame ∷ self.old }
    {
        let top = self.top - 1;
        self.memory[top] = frame;
        self.top = top;
    }

    /// Closes the innermost writer.
    pub(crate) fn pop(&mut self)
        requires { 0 < length self.old }
        ensures { self.new ≡ drop 1 self.old }
    {
        self.top += 1;
    }

    /// Replaces the innermost writer.
    pub(crate) fn replace(&mut self, frame: Frame)
        requires { 0 < length self.old }
        ensures { self.new ≡ frame ∷ drop 1 self.old }
    {
        let top = self.top;
        self.memory[top] = frame;
    }
}
