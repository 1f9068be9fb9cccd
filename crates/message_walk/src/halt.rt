// The first place that isn't written.
ghost use Rattle.std.specs.Prelude.{◌≡◌, []};
ghost use Rattle.message_walk.specs.Ways.{pushed, way_of};

use crate::trail::{Trail, WayStep};
use fix_values::V;

/// Why a place isn't written.
#[derive(Clone, Copy, Debug, PartialEq, Eq, Drop)]
pub enum Cause {
    /// Its value has no text.
    NoText(V),
    /// Its entry doesn't begin with the delimiter.
    NoDelimiter,
    /// The text would be too long: this many bytes, or `u64::MAX` if they are more than that.
    Full(u64),
}

/// The first place that isn't written, lent to the walk so that nothing wide is returned.
#[derive(Drop)]
pub struct Halt {
    pub cause: Cause,
    pub way: Trail,
}

impl Halt {
    /// The initial contents, before anything was refused.
    pub fn new() -> Halt {
        Halt {
            cause: Cause::NoDelimiter,
            way: Trail::new(),
        }
    }

    /// Records that it is the current place.
    #[cold]
    pub fn tell(&mut self, cause: Cause)
        ensures { self.new ≡ record { cause = cause; way = [] } }
    {
        self.cause = cause;
        self.way.clear();
    }

    /// Records that the place is inside this step.
    #[cold]
    pub fn under(&mut self, step: WayStep)
        ensures { self.new ≡ record { cause = self.old.cause; way = pushed (way_of step) self.old.way } }
    {
        self.way.push_front(step);
    }
}
