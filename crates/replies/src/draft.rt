ghost use Rattle.std.specs.Prelude.{◌≡◌, []};
ghost use Rattle.replies.specs.Outside.{sinks_of};
ghost use Rattle.replies.specs.Reply.{Reply};
ghost use Rattle.replies.specs.Drafts.{drafted, Drafts, WritesBoth, DeliversDraft};

use crate::verdict::Verdict;
use lists::NoMem;
use sbe_base::{Sink, Status, WriteFault, write_all_to};
use std::alloc::Global;

/// The answer to one piece, before it is written.
#[derive(Drop)]
pub struct Draft {
    pub output: Vec<u8>,
    pub notes: Vec<u8>,
}

impl Draft {
    /// Creates an empty draft.
    pub fn new(alloc: Global) -> Draft
        ensures output { result.output.items ≡ [] }
        ensures notes { result.notes.items ≡ [] }
    {
        Draft {
            output: Vec::new(alloc),
            notes: Vec::new(alloc),
        }
    }

    /// Empties it.
    pub fn clear(&mut self)
        ensures output { self.new.output.items ≡ [] }
        ensures notes { self.new.notes.items ≡ [] }
    {
        self.output.clear();
        self.notes.clear();
    }
}

/// Writes an answer that was put into a draft, or returns the status with which the run then ends.
pub fn deliver<O: Sink, N: Sink>(
    put: Result<Verdict, NoMem>,
    draft: &Draft,
    output: &mut O,
    notes: &mut N,
) -> Result<Verdict, Status>
    ensures { (reply : Reply) → Drafts reply draft.now put → DeliversDraft reply
        (sinks_of (O.state output.old) (N.state notes.old))
        (sinks_of (O.state output.new) (N.state notes.new))
        result }
{
    let Ok(verdict) = put else {
        return Err(Status::NoMemory);
    };
    match write_draft(draft, output, notes) {
        Ok(()) => Ok(verdict),
        Err(_) => Err(Status::WriteFault),
    }
}

/// Writes the contents of a draft, the output first.
fn write_draft<O: Sink, N: Sink>(
    draft: &Draft,
    output: &mut O,
    notes: &mut N,
) -> Result<(), WriteFault>
    ensures { WritesBoth (drafted draft.now)
        (sinks_of (O.state output.old) (N.state notes.old))
        (sinks_of (O.state output.new) (N.state notes.new))
        result }
{
    match write_all_to(output, draft.output.as_slice()) {
        Ok(()) => write_all_to(notes, draft.notes.as_slice()),
        Err(fault) => Err(fault),
    }
}
