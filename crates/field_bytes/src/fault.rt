ghost use Rattle.std.specs.Prelude.{◌≡◌};
ghost use Rattle.sbe_wire.specs.Misfit.{misfit_here, misfit_in};
ghost use Rattle.sbe_types.specs.declared.path.Step.TheVariants.{Elem};
ghost use Rattle.field_bytes.specs.Faults.{code_of, misfit_unless};

/// Why a value doesn't fit its field.
#[derive(Clone, Copy, Debug, PartialEq, Eq)]
pub enum FieldCause {
    /// A number is out of range or is the null of an optional field, or a text is too long, or is the empty text of an
    /// optional field.
    Range,
    /// An enum's number isn't listed.
    EnumUnknown,
    /// A set has a bit that isn't listed.
    SetUnknown,
    /// The text contains a byte that isn't allowed.
    TextByte,
    /// The value has another kind, or is an array of another length.
    Kind,
}

/// The first element or byte of a value that doesn't fit its field.
#[derive(Clone, Copy, Debug, PartialEq, Eq)]
pub struct ValueFault {
    pub cause: FieldCause,
    /// The element of an array, counted from 0.
    pub elem: Option<usize>,
    /// The number or the byte, or the length of a text; 0 if the value has another kind.
    pub detail: i128,
}

/// Writes to `out` why a value doesn't fit, and returns false.
pub(crate) fn refuse(cause: FieldCause, detail: i128, out: &mut ValueFault) -> bool
    ensures { misfit_unless result out.new ≡ misfit_here (code_of cause) detail }
{
    *out = ValueFault {
        cause,
        elem: None,
        detail,
    };
    false
}

/// The same for element `at`.
pub(crate) fn refuse_element(
    at: usize,
    cause: FieldCause,
    detail: i128,
    out: &mut ValueFault,
) -> bool
    ensures { misfit_unless result out.new ≡ misfit_in (Elem at) (misfit_here (code_of cause) detail) }
{
    *out = ValueFault {
        cause,
        elem: Some(at),
        detail,
    };
    false
}
