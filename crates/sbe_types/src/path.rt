ghost use Rattle.std.specs.Prelude.{◌≡◌, ◌∷◌, ◌++◌, [], ◌<◌, length, slice_get, Some};

use std::marker::Model;

/// One step of a path, counted from 0.
#[derive(Clone, Copy, Debug, PartialEq, Eq)]
pub enum Step {
    /// A part of a level: its fields first, then its groups, then its data. Below a composite field, the number of a
    /// member.
    Part(u32),
    /// An entry of a group.
    Entry(u32),
    /// An element of an array.
    Elem(u32),
}

/// The path from a message's root to one of its parts: up to 20 steps, without allocation.
#[derive(Drop)]
pub struct Path {
    steps: [Step; 20],
    len: usize,
}

impl Model for Path {
    ghost use Rattle.std.specs.Prelude.{List, take, ◌≤◌, ◌≡◌, length};
    ghost use Rattle.sbe_types.specs.declared.path.Step.{Step};

    ghost Value = { List Step };

    ghost view = { λ path. take path.len path.steps };

    ghost invariant = { λ path. (path.len ≤ 20) × (length path.steps ≡ 20) };
}

impl Path {
    /// The empty path: the root.
    pub fn new() -> Path
        ensures { result ≡ [] }
    {
        Path {
            steps: [Step::Part(0); 20],
            len: 0,
        }
    }

    /// The number of steps.
    pub fn len(&self) -> usize
        ensures { result ≡ length self.now }
    {
        self.len
    }

    /// Adds a step at the end.
    pub fn push(&mut self, step: Step)
        requires { length self.old < 20 }
        ensures { self.new ≡ self.old ++ step ∷ [] }
    {
        self.steps[self.len] = step;
        self.len += 1;
    }

    /// Step `i`, counted from 0.
    pub fn step(&self, i: usize) -> Step
        requires { i < length self.now }
        ensures { slice_get self.now i ≡ Some result }
    {
        let _len = self.len;
        self.steps[i]
    }
}
