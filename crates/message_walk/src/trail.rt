// The path to a place.
ghost use Rattle.std.specs.Prelude.{◌≡◌, [], map};
ghost use Rattle.message_walk.specs.Ways.{pushed, way_of};

use std::marker::Model;

/// A step of the path to a place.
#[derive(Clone, Copy, Debug, PartialEq, Eq)]
pub enum WayStep {
    /// A part, by its tag.
    Part(u32),
    /// An entry, by its number, counted from 0.
    Entry(usize),
}

/// How many steps of a path are kept. The groups of a message nest six deep, so no path has more than 13.
const MOST_STEPS: usize = 20;

/// The path to a place, of which the last steps are kept. They are at the end of the array, since each level prepends
/// its own on the way out.
#[derive(Drop)]
pub struct Trail {
    steps: [WayStep; 20],
    start: usize,
}

impl Model for Trail {
    ghost use Rattle.std.specs.Prelude.{◌≡◌, ◌≤◌, List, length};
    ghost use Rattle.bridge_terms.specs.Places.{Way};
    ghost use Rattle.message_walk.specs.Ways.{steps_from};

    ghost Value = { List Way };

    ghost view = { λ trail. steps_from trail.start trail.steps };

    ghost invariant = { λ trail. (trail.start ≤ 20) × (length trail.steps ≡ 20) };
}

impl Trail {
    /// Creates an empty trail.
    #[tactic(auto, using(crate::proofs::Trails::no_steps))]
    pub fn new() -> Trail
        ensures { result ≡ [] }
    {
        Trail {
            steps: [WayStep::Part(0); 20],
            start: MOST_STEPS,
        }
    }

    /// The steps.
    #[tactic(auto, using(crate::proofs::Trails::rest_of_steps))]
    pub fn steps(&self) -> &[WayStep]
        ensures { map way_of result.now ≡ self.now }
    {
        &self.steps[self.start..]
    }

    /// Removes all steps.
    pub fn clear(&mut self)
        ensures { self.new ≡ [] }
    {
        self.start = MOST_STEPS;
    }

    /// Prepends a step, if there is room.
    #[tactic(auto, using(crate::proofs::Trails::step_in_front, crate::proofs::Trails::no_room))]
    pub fn push_front(&mut self, step: WayStep)
        ensures { self.new ≡ pushed (way_of step) self.old }
    {
        if self.start > 0 {
            self.start -= 1;
            self.steps[self.start] = step;
        }
    }
}
