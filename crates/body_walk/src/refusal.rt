ghost use Rattle.std.specs.Prelude.{◌≡◌};
ghost use Rattle.body_walk.specs.Refusals.{refused};

use crate::found::Found;
use sbe_types::Path;
use sbe_wire::FCode;
use std::marker::Model;

/// Why a body isn't a message: its first faulty part in wire order.
#[derive(Drop)]
pub struct Refusal {
    pub code: FCode,
    /// The number of the message with the header's template id, or `None` if the header names none of this schema.
    pub template: Option<usize>,
    /// The path to the part; empty for the root block, the header and what follows the message.
    pub path: Path,
    /// The offset of the fault from the body's first byte.
    pub offset: usize,
    /// The number that is refused, or how many bytes are needed, available or superfluous.
    pub detail: i128,
}

/// Why the last body that was checked isn't a message. It is lent, so that a body that is a message costs nothing for
/// it.
#[derive(Drop)]
pub struct LastRefusal {
    pub(crate) template: Option<usize>,
    pub(crate) found: Found,
}

impl Model for LastRefusal {
    ghost use Rattle.body_walk.specs.inner.Outcomes.{fault_of};
    ghost use Rattle.body_walk.specs.Refusals.{Misread};

    ghost Value = { Misread };

    ghost view = { λ last. record { template = last.template; fault = fault_of last.found } };
}

impl LastRefusal {
    /// The initial contents, before a body was checked.
    pub fn new() -> LastRefusal {
        LastRefusal {
            template: None,
            found: Found::new(),
        }
    }

    /// The refusal of the last body that was checked.
    #[cold]
    pub fn refusal(&self) -> Refusal
        ensures fault { refused result ≡ self.now.fault }
        ensures template { result.template ≡ self.now.template }
    {
        Refusal {
            code: self.found.code,
            template: self.template,
            path: self.found.path.to_path(),
            offset: self.found.offset,
            detail: self.found.detail,
        }
    }
}
