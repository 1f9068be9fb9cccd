ghost use Rattle.std.specs.Prelude.{◌≡◌, ◌∷◌, [], ◌<◌, length};
ghost use Rattle.kind_bytes.specs.Misfits.{misfit_of, unfit_of};

use field_bytes::FieldCause;
use sbe_types::{Path, Step, Trail};

/// Why a field can't be set to a value.
#[derive(Drop)]
pub struct FieldErr {
    pub cause: FieldCause,
    /// The path to the part that doesn't fit: the field's part in its block, then members of composites, then an
    /// element of an array.
    pub path: Path,
    /// The number or the byte, or the length of a text; 0 if the value has another kind.
    pub detail: i128,
}

/// The first part of a value that doesn't fit its kind. It is lent to the walk over the value, so that nothing wide is
/// returned.
#[derive(Drop)]
pub struct ValueMisfit {
    pub cause: FieldCause,
    /// The path to the part: members of composites, then an element of an array.
    pub path: Trail,
    /// The number or the byte, or the length of a text; 0 if the value has another kind.
    pub detail: i128,
}

impl ValueMisfit {
    /// The initial contents, before a misfit was found.
    pub fn new() -> ValueMisfit
        ensures { length result.path ≡ 0 }
    {
        ValueMisfit {
            cause: FieldCause::Kind,
            path: Trail::new(),
            detail: 0,
        }
    }

    /// Records that the value itself doesn't fit.
    #[cold]
    pub(crate) fn tell(&mut self, cause: FieldCause, detail: i128)
        ensures { self.new ≡ record { cause = cause; path = []; detail = detail } }
    {
        self.cause = cause;
        self.path.clear();
        self.detail = detail;
    }

    /// Records that the misfit is inside this step.
    #[cold]
    pub(crate) fn under(&mut self, step: Step)
        requires { length self.old.path < 20 }
        ensures { self.new ≡ record { cause = self.old.cause; path = step ∷ self.old.path; detail = self.old.detail } }
    {
        self.path.push_front(step);
    }

    /// The same, as an error.
    #[cold]
    pub(crate) fn to_err(&self) -> FieldErr
        ensures { misfit_of result ≡ unfit_of self.now }
    {
        FieldErr {
            cause: self.cause,
            path: self.path.to_path(),
            detail: self.detail,
        }
    }
}
