ghost use Rattle.std.specs.Prelude.{◌≡◌, ◌∷◌, [], ◌<◌, length};

use crate::path::{Path, Step};
use std::marker::Model;

/// The steps to a part, gathered from the part outwards: up to 20, without allocation. They are at the end of the array,
/// since each level prepends its own on the way out.
#[derive(Drop)]
pub struct Trail {
    steps: [Step; 20],
    start: usize,
}

impl Model for Trail {
    ghost use Rattle.std.specs.Prelude.{List, drop, ◌≤◌, ◌≡◌, length};
    ghost use Rattle.sbe_types.specs.declared.path.Step.{Step};

    ghost Value = { List Step };

    ghost view = { λ trail. drop trail.start trail.steps };

    ghost invariant = { λ trail. (trail.start ≤ 20) × (length trail.steps ≡ 20) };
}

impl Trail {
    /// Creates an empty trail.
    pub fn new() -> Trail
        ensures { result ≡ [] }
    {
        Trail {
            steps: [Step::Part(0); 20],
            start: 20,
        }
    }

    /// The same steps as a path.
    pub fn to_path(&self) -> Path
        ensures { result ≡ self.now }
    {
        let mut path = Path::new();
        for step in &self.steps[self.start..] {
            path.push(*step);
        }
        path
    }

    /// Removes all steps.
    pub fn clear(&mut self)
        ensures { self.new ≡ [] }
    {
        self.start = 20;
    }

    /// Prepends a step.
    #[tactic(auto, using(crate::proofs::Trails::one_in_front, crate::proofs::Trails::room))]
    pub fn push_front(&mut self, step: Step)
        requires { length self.old < 20 }
        ensures { self.new ≡ step ∷ self.old }
    {
        self.start -= 1;
        self.steps[self.start] = step;
    }
}
