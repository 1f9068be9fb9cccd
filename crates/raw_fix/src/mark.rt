ghost use Rattle.std.specs.Prelude.{◌≡◌, ◌≤◌, ◌+◌, length};
ghost use Rattle.raw_fix.specs.Places.{Marks};

use memchr::memmem;

/// Where the search for a text resumes after bytes that aren't one.
pub const MARK: &[u8; 5] = b"8=FIX";

/// The result of a search for a mark.
#[derive(Clone, Copy, Debug, PartialEq, Eq)]
pub(crate) enum Marked {
    /// The first mark follows this many bytes.
    At(usize),
    /// There is none, and none begins within this many bytes, whatever follows.
    NotIn(usize),
}

/// Where the first mark is, or how many bytes can be released.
pub(crate) fn next_mark(bytes: &[u8]) -> Marked
    ensures { Marks bytes.now result }
{
    match memmem::find(bytes, MARK) {
        Some(i) => Marked::At(i),
        None => Marked::NotIn(bytes.len() - bytes.len().min(MARK.len() - 1)),
    }
}
