ghost use Rattle.std.specs.Prelude.{◌≡◌, ◌∷◌, [], ◌<◌, length};

use sbe_types::{Step, Trail};
use sbe_wire::FCode;

/// The first fault found, lent to the walk so that nothing wide is returned.
#[derive(Drop)]
pub(crate) struct Found {
    pub(crate) code: FCode,
    pub(crate) path: Trail,
    pub(crate) offset: usize,
    pub(crate) detail: i128,
}

impl Found {
    /// The initial contents, before a fault was found.
    pub(crate) fn new() -> Found
        ensures { length result.path ≡ 0 }
    {
        Found {
            code: FCode::ShortHeader,
            path: Trail::new(),
            offset: 0,
            detail: 0,
        }
    }

    /// Records a fault at the current place.
    #[cold]
    pub(crate) fn tell(&mut self, code: FCode, offset: usize, detail: i128)
        ensures { self.new ≡ record { code = code; path = []; offset = offset; detail = detail } }
    {
        self.code = code;
        self.path.clear();
        self.offset = offset;
        self.detail = detail;
    }

    /// Records that the fault is inside this step.
    #[cold]
    pub(crate) fn under(&mut self, step: Step)
        requires { length self.old.path < 20 }
        ensures { self.new ≡ record { code = self.old.code; path = step ∷ self.old.path; offset = self.old.offset; detail = self.old.detail } }
    {
        self.path.push_front(step);
    }
}
