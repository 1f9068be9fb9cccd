ghost use Rattle.std.specs.Prelude.{◌≡◌, ◌++◌, Result, IfOk};
ghost use Rattle.line_values.specs.Refusals.{Reading, Gives, refuse, inside};

use lists::{List, NoMem, Text};
use std::alloc::Global;
use thiserror::Error;

/// Why a line isn't a message, as `J01` to `J04`.
#[derive(Clone, Copy, Debug, PartialEq, Eq, Error)]
pub enum JCode {
    /// `J01`: it isn't a JSON text (RFC 8259).
    #[error("J01")]
    NotJson,
    /// `J02`: it isn't an object, or something required in it is missing.
    #[error("J02")]
    Shape,
    /// `J03`: a key, a template, a valid value or a choice is unknown.
    #[error("J03")]
    UnknownName,
    /// `J04`: a value has the wrong kind.
    #[error("J04")]
    Kind,
}

/// Why nothing was read: a refusal with its place, or out of memory. A place is the path of a field, group or data
/// part, such as `legs[0].q`, or a bare key; it is empty for the line itself.
#[derive(Debug, Drop, Error)]
pub enum LineFault {
    #[error("{0}")]
    Refused(JCode, Text),
    #[error("out of memory")]
    Memory,
}

impl From<NoMem> for LineFault {
    ghost use Rattle.line_values.specs.declared.refusals.LineFault.TheVariants.{Memory};

    ghost from_gives = { λ _ e. e ≡ Memory };

    fn from(_: NoMem) -> LineFault {
        LineFault::Memory
    }
}

/// Refuses what is at this place.
pub fn refuse<T: Drop>(alloc: Global, code: JCode, place: &[u8]) -> Result<T, LineFault>
    ensures { Gives result (refuse code place.now) }
{
    match List::from_slice(alloc, place) {
        Ok(place) => Err(LineFault::Refused(code, place)),
        Err(_) => Err(LineFault::Memory),
    }
}

/// A step, followed by a place.
fn place_of(alloc: Global, step: &[u8], place: &[u8]) -> Result<Text, NoMem>
    ensures { IfOk result (λ text. text ≡ step.now ++ place.now) }
{
    let mut text = List::from_slice(alloc, step)?;
    text.extend(place)?;
    Ok(text)
}

/// The result of reading one level below, as seen from here: the place of a refusal gets one more step.
pub fn inside<T: Drop>(
    alloc: Global,
    step: &[u8],
    read: Result<T, LineFault>,
) -> Result<T, LineFault>
    ensures { (told : Reading T) → Gives read told → Gives result (inside step.now told) }
{
    match read {
        Ok(found) => Ok(found),
        Err(LineFault::Memory) => Err(LineFault::Memory),
        Err(LineFault::Refused(code, place)) => match place_of(alloc, step, place.as_slice()) {
            Ok(place) => Err(LineFault::Refused(code, place)),
            Err(_) => Err(LineFault::Memory),
        },
    }
}
