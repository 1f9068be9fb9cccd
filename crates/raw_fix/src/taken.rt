ghost use Rattle.std.specs.Prelude.{◌≡◌, ◌<◌, ◌+◌, ◌^◌};

use crate::code::PCode;
use thiserror::Error;

/// The answer of [`crate::RawStream::take`].
#[derive(Clone, Copy, Debug, PartialEq, Eq)]
pub enum RawTaken {
    /// A message, which [`crate::RawStream::text`] returns. The table holds its fields.
    Message,
    /// Bytes that aren't a message.
    Garbled {
        /// Why they aren't.
        code: PCode,
        /// How many bytes of the input precede them.
        at: u64,
        /// The number of these bytes.
        length: u64,
    },
    /// The source ended after the last item, or before the first one.
    End,
}

/// Why [`crate::RawStream::take`] failed.
#[derive(Clone, Copy, Debug, PartialEq, Eq, Drop, Error)]
pub enum RawErr {
    /// As many bytes were taken as the limit of the input allows, they don't decide the next item, and the source has
    /// more.
    #[error("the input has more bytes than its limit")]
    InputLimit,
    /// A read failed: the source's count of faults rose, or is at its largest value. The bytes that were taken don't
    /// decide the next item.
    #[error("a read failed")]
    ReadFault,
}

/// Bytes that aren't a message and whose end hasn't been found.
#[derive(Clone, Copy, Debug, PartialEq, Eq)]
pub struct Run {
    /// Why they aren't.
    pub code: PCode,
    /// How many bytes of the input precede them.
    pub at: u64,
    /// How many of them have been released.
    pub length: u64,
}

impl Run {
    /// The run after `n` more of its bytes were released.
    pub(crate) fn longer(self, n: usize) -> Run
        requires { self.length + n < 2 ^ 64 }
        ensures { result ≡ record self { length = self.length + n } }
    {
        Run {
            length: self.length + n as u64,
            ..self
        }
    }
}

/// How a stream ended. Once it ended, this answer stays.
#[derive(Clone, Copy, Debug, PartialEq, Eq)]
pub enum RawEnded {
    /// All items were taken.
    End,
    /// There is one byte more than the limit of the input.
    Limit,
}
