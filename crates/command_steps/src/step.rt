ghost use Rattle.std.specs.Prelude.{◌≡◌, []};
ghost use Rattle.replies.specs.Outside.{NotesLine};
ghost use Rattle.command_steps.specs.Replies.{counted_by};
ghost use Rattle.command_steps.specs.Ends.{done_status};
ghost use Rattle.command_steps.specs.Stands.{CanCount};

use crate::kept::Kept;
use replies::Verdict;
use sbe_base::{Sink, Status};

/// What is counted for an item that was answered.
#[derive(Clone, Copy, Debug, PartialEq, Eq)]
pub struct Tally {
    /// Its bytes in the input.
    pub bytes: u64,
    pub verdict: Verdict,
}

/// What a step did.
#[derive(Clone, Copy, Debug, PartialEq, Eq)]
pub enum Step {
    /// An item was answered.
    Went,
    /// The run has ended.
    Ended(Status),
}

/// Counts an item.
pub fn count(kept: &mut Kept, tally: Tally)
    requires { CanCount kept.old tally }
    ensures { kept.new ≡ counted_by kept.old tally.bytes tally.verdict }
{
    kept.items += 1;
    kept.bytes += tally.bytes;
    match tally.verdict {
        Verdict::Answered => {}
        Verdict::Refused => kept.refused += 1,
        Verdict::Translated => kept.translated += 1,
        Verdict::Regraded { dropped, filled } => {
            kept.dropped += dropped;
            kept.filled += filled;
        }
    }
}

/// Ends a run that answered all items, without noting a line.
pub fn end_without_line<N: Sink>(kept: &Kept, _notes: &mut N) -> Status
    ensures { NotesLine [] (done_status kept.now.refused) (N.state _notes.old) (N.state _notes.new) result }
{
    done(kept)
}

/// The status of a run that answered all items.
pub fn done(kept: &Kept) -> Status
    ensures { result ≡ done_status kept.now.refused }
{
    if kept.refused > 0 {
        Status::SomeRefused
    } else {
        Status::Done
    }
}
