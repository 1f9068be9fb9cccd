// The first misfit of a message.
ghost use Rattle.std.specs.Prelude.{◌≡◌, ◌∷◌, [], ◌<◌, ◌≤◌, ◌+◌, if◌then◌else◌, length};
ghost use Rattle.field_bytes.specs.Faults.{code_of};
ghost use Rattle.kind_bytes.specs.Misfits.{unfit_of};
ghost use Rattle.sbe_wire.specs.Misfit.{inside_step, is_full};
ghost use Rattle.tree_codec.specs.Shapes.{misfit_of};

use field_bytes::FieldCause;
use kind_bytes::ValueMisfit;
use sbe_types::{Step, Trail};
use sbe_wire::NCode;

/// The first misfit found, lent to the walk over a message so that nothing wide is returned.
#[derive(Drop)]
pub(crate) struct FirstMisfit {
    pub(crate) code: NCode,
    pub(crate) path: Trail,
    pub(crate) detail: i128,
}

impl FirstMisfit {
    /// The initial contents, before a misfit was found.
    pub(crate) fn new() -> FirstMisfit
        ensures { length result.path ≡ 0 }
    {
        FirstMisfit {
            code: NCode::Shape,
            path: Trail::new(),
            detail: 0,
        }
    }

    /// Records a misfit at the current place.
    #[cold]
    pub(crate) fn tell(&mut self, code: NCode, detail: i128)
        ensures { self.new ≡ record { code = code; path = []; detail = detail } }
    {
        self.code = code;
        self.path.clear();
        self.detail = detail;
    }

    /// Records the misfit of a value.
    #[cold]
    pub(crate) fn take(&mut self, value: ValueMisfit)
        ensures told { misfit_of self.new ≡ unfit_of value }
        ensures path { self.new.path ≡ value.path }
    {
        let ValueMisfit {
            cause,
            path,
            detail,
        } = value;
        self.code = code_of(cause);
        self.path = path;
        self.detail = detail;
    }

    /// Records that the misfit is inside this step.
    #[cold]
    pub(crate) fn under(&mut self, step: Step)
        requires { length self.old.path < 20 }
        ensures { self.new ≡ record { code = self.old.code; path = step ∷ self.old.path; detail = self.old.detail } }
    {
        self.path.push_front(step);
    }

    /// Records that the misfit is inside this step, unless it is lack of room, which concerns the whole body.
    #[cold]
    pub(crate) fn inside(&mut self, step: Step)
        requires { length self.old.path < 20 }
        ensures told { misfit_of self.new ≡ (if is_full self.old.code then misfit_of self.old else inside_step step (misfit_of self.old)) }
        ensures low { length self.new.path ≤ length self.old.path + 1 }
    {
        if !is_full(self.code) {
            self.under(step);
        }
    }
}

/// Whether a code means lack of room.
fn is_full(code: NCode) -> bool
    ensures { result ≡ is_full code }
{
    match code {
        NCode::Full => true,
        NCode::Range
        | NCode::EnumUnknown
        | NCode::SetUnknown
        | NCode::TextByte
        | NCode::Kind
        | NCode::Count
        | NCode::Length
        | NCode::Shape => false,
    }
}

/// The code of a cause.
fn code_of(cause: FieldCause) -> NCode
    ensures { result ≡ code_of cause }
{
    match cause {
        FieldCause::Range => NCode::Range,
        FieldCause::EnumUnknown => NCode::EnumUnknown,
        FieldCause::SetUnknown => NCode::SetUnknown,
        FieldCause::TextByte => NCode::TextByte,
        FieldCause::Kind => NCode::Kind,
    }
}
