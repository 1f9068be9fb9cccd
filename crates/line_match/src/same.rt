ghost use Rattle.std.specs.Prelude.{◌≡◌, ◌≤◌, Some, length, take, true};
ghost use Rattle.line_match.specs.Pieces.{StandsAt};

use sbe_base::{Failed, Sink};

/// Accepts only the bytes of a line, in order, and fails at any other.
#[derive(Drop)]
pub(crate) struct SameSink<'a> {
    line: &'a [u8],
    at: usize,
    faults: u64,
    ghost within: { at ≤ length line.now },
}

impl<'a> SameSink<'a> {
    /// A sink that has accepted nothing of the line yet.
    pub(crate) fn new(line: &'a [u8]) -> SameSink<'a>
        ensures line { result.line.now ≡ line.now }
        ensures at { result.at ≡ 0 }
    {
        SameSink {
            line,
            at: 0,
            faults: 0,
        }
    }

    /// Whether this is the line, and all of it was accepted.
    pub(crate) fn is_whole(&self, line: &[u8]) -> bool
        ensures { result ≡ true → line.now ≡ take self.now.at self.now.line.now }
    {
        self.at == self.line.len() && line == self.line
    }
}

/// Whether the bytes are at this offset of the line.
#[inline(always)]
fn has_next(line: &[u8], at: usize, bytes: &[u8]) -> bool
    requires { at ≤ length line.now }
    ensures { result ≡ true → StandsAt line.now at bytes.now }
{
    if bytes.len() > line.len() - at {
        return false;
    }
    &line[at..at + bytes.len()] == bytes
}

impl<'a> Sink for SameSink<'a> {
    ghost state = { λ sink. record { told = Some (take sink.at sink.line.now); faults = sink.faults } };

    #[inline(always)]
    fn write(&mut self, bytes: &[u8]) -> Result<usize, Failed> {
        if has_next(self.line, self.at, bytes) {
            self.at += bytes.len();
            return Ok(bytes.len());
        }
        self.faults = self.faults.saturating_add(1);
        Err(Failed)
    }
}
