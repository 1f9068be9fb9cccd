ghost use Rattle.std.specs.Prelude.{◌≡◌, [], ℕ, Bool, List, length};
ghost use Rattle.open_framing.specs.Frames.{Item};
ghost use Rattle.replies.specs.Reply.{Reply};
ghost use Rattle.replies.specs.Outside.{sinks_of, NotesLine};
ghost use Rattle.command_steps.specs.Ends.{done_status};
ghost use Rattle.command_steps.specs.Replies.{Replied, Drafted, Wants};
ghost use Rattle.command_steps.specs.declared.kept.Kept.{Kept as Numbers};

use crate::kept::Kept;
use lists::NoMem;
use replies::{Draft, Verdict};
use sbe_base::{Sink, Status};

/// A command that answers each frame of its input.
pub trait FrameCommand: Drop {
    /// The reply to a frame, given what was done before.
    ghost is_reply: { Self → Numbers → Item → Reply → Type 0 };

    /// The last line of its notes, given the numbers of a run that answered all of its input.
    ghost last: { Numbers → List ℕ };

    /// Whether replying never runs out of memory.
    ghost spares: { Bool };

    /// Writes the reply to a frame.
    ///
    /// # Errors
    ///
    /// `WriteFault` if a write fails; `NoMemory` if memory runs out, and then nothing is written.
    fn answer<O: Sink, N: Sink>(
        &mut self,
        kept: &Kept,
        encoding: u16,
        body: &[u8],
        output: &mut O,
        notes: &mut N,
    ) -> Result<Verdict, Status>
        ensures same { self.new ≡ self.old }
        ensures replied { Replied (length body.now) (is_reply self.old kept.now (record { encoding = encoding; body = body.now }))
            (sinks_of (O.state output.old) (N.state notes.old))
            (sinks_of (O.state output.new) (N.state notes.new))
            result }
        ensures wants { Wants spares result };

    /// Notes the last line of a run that answered all of its input, and returns the status of the run.
    fn end<N: Sink>(&mut self, kept: &Kept, notes: &mut N) -> Status
        ensures same { self.new ≡ self.old }
        ensures told { NotesLine (last kept.now) (done_status kept.now.refused) (N.state notes.old) (N.state notes.new) result };
}

/// A command that answers each line of its input.
pub trait LineCommand: Drop {
    /// The reply to a line, given what was done before.
    ghost is_reply: { Self → Numbers → List ℕ → Reply → Type 0 };

    /// The last line of its notes, given the numbers of a run that answered all of its input.
    ghost last: { Numbers → List ℕ };

    /// Writes the reply to a line.
    ///
    /// # Errors
    ///
    /// `WriteFault` if a write fails; `NoMemory` if memory runs out, and then nothing is written.
    fn answer<O: Sink, N: Sink>(
        &mut self,
        kept: &Kept,
        line: &[u8],
        output: &mut O,
        notes: &mut N,
    ) -> Result<Verdict, Status>
        ensures same { self.new ≡ self.old }
        ensures replied { Replied (length line.now) (is_reply self.old kept.now line.now)
            (sinks_of (O.state output.old) (N.state notes.old))
            (sinks_of (O.state output.new) (N.state notes.new))
            result };

    /// Notes the last line of a run that answered all of its input, and returns the status of the run.
    fn end<N: Sink>(&mut self, kept: &Kept, notes: &mut N) -> Status
        ensures same { self.new ≡ self.old }
        ensures told { NotesLine (last kept.now) (done_status kept.now.refused) (N.state notes.old) (N.state notes.new) result };
}

/// A command that does one job over its files, and reads nothing of its input.
pub trait WholeCommand: Drop {
    /// Its whole reply.
    ghost is_reply: { Self → Reply → Type 0 };

    /// Puts its reply into an empty draft.
    fn put(&self, draft: &mut Draft) -> Result<Verdict, NoMem>
        requires output { draft.old.output.items ≡ [] }
        requires notes { draft.old.notes.items ≡ [] }
        ensures { Drafted (is_reply self.now) draft.new result };
}
