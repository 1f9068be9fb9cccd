ghost use Rattle.std.specs.Prelude.{◌≡◌};

use lists::{NoMem, Text};
use thiserror::Error;

/// Why a mapping is refused. The codes are printed as M01 to M10, in this order.
#[derive(Clone, Copy, Debug, PartialEq, Eq, Error)]
pub enum MCode {
    /// M01: the file begins like XML.
    #[error("begins as XML does")]
    Xml,
    /// M02: the file isn't a JSON value.
    #[error("no JSON value")]
    NotJson,
    /// M03: an element isn't one that is allowed at its place.
    #[error("no element of this place")]
    Shape,
    /// M04: an attribute is missing, or doesn't have its form.
    #[error("a missing or bad attribute")]
    BadAttribute,
    /// M05: an id refers to nothing.
    #[error("a reference to nothing")]
    UnknownReference,
    /// M06: a name, id, lengthId, msgType or value occurs earlier in its list.
    #[error("it stands twice")]
    Duplicate,
    /// M07: references lead from a component or group to one of them a second time.
    #[error("references without end")]
    Cycle,
    /// M08: a message has the same tag at two places.
    #[error("one tag at two places")]
    AmbiguousTag,
    /// M09: a type is unknown, or a field doesn't have the type that its use requires.
    #[error("a wrong datatype")]
    Datatype,
    /// M10: the file or a message exceeds a limit.
    #[error("over a limit")]
    Limit,
}

/// Why no repository was read.
#[derive(Debug, Drop, Error)]
pub enum MapErr {
    /// A refusal with its path: a JSON pointer for M01 to M04 and for the size of the file; otherwise the list and the
    /// position of the member in it, such as `fields/3`.
    #[error("{0}")]
    Refused(MCode, Text),
    #[error("out of memory")]
    Memory,
}

impl From<NoMem> for MapErr {
    ghost use Rattle.map_types.specs.declared.codes.MapErr.TheVariants.{Memory};

    ghost from_gives = { λ _ e. e ≡ Memory };

    fn from(_: NoMem) -> MapErr {
        MapErr::Memory
    }
}
