ghost use Rattle.std.specs.Prelude.{◌≡◌, []};
ghost use Rattle.regrade.specs.Fillings.{IsInside, IsShort};

use sbe_types::{Step, Trail};
use std::alloc::Global;

/// Why the absent parts of a message can't be filled.
#[derive(Clone, Copy, Debug, PartialEq, Eq)]
pub(crate) enum Unfilled {
    /// A part has no empty value.
    NoFill,
    /// Out of memory.
    Memory,
}

/// The state while the absent parts of a message are filled.
#[derive(Drop)]
pub(crate) struct Filler {
    pub(crate) alloc: Global,
    /// How many parts were filled so far, except for constants.
    pub(crate) filled: u64,
    /// The path to the part that has no empty value, if there is one.
    pub(crate) lack: Trail,
}

impl Filler {
    /// The initial state: nothing is filled.
    pub(crate) fn new(alloc: Global) -> Filler
        ensures { result.filled ≡ 0 }
    {
        Filler {
            alloc,
            filled: 0,
            lack: Trail::new(),
        }
    }

    /// Records that the current part has no empty value.
    #[cold]
    pub(crate) fn lacks(&mut self) -> Unfilled
        ensures why { result ≡ Unfilled.NoFill }
        ensures lack { self.new.lack ≡ [] }
    {
        self.lack.clear();
        Unfilled::NoFill
    }

    /// Records that the part without an empty value is inside this step.
    #[cold]
    pub(crate) fn inside(&mut self, step: Step, why: Unfilled) -> Unfilled
        requires { IsShort why self.old }
        ensures why { result ≡ why }
        ensures lack { IsInside step why self.old self.new }
    {
        match why {
            Unfilled::NoFill => self.lack.push_front(step),
            Unfilled::Memory => {}
        }
        why
    }
}
