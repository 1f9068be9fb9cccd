ghost use Rattle.std.specs.Prelude.{◌≡◌, ◌<◌, ◌^◌, ℕ, List, true, None, IfOk, length};
ghost use Rattle.raw_fix.specs.Taking.{RawCause, RawTextOf, TakesRaw, lefts_if, texts_for};
ghost use Rattle.replies.specs.Outside.{sinks_of};
ghost use Rattle.replies.specs.Drafts.{DeliversDraft};
ghost use Rattle.command_steps.specs.Replies.{Wants};
ghost use Rattle.sbe_base.specs.Objects.{Object};
ghost use Rattle.raw_steps.specs.RawReplies.{framed, noted, put_so};

use crate::lines::{Place, note_garbled, write_frame};
use command_steps::Kept;
use lists::NoMem;
use printers::Chunk;
use raw_fix::{PCode, RawErr, RawStream, RawTaken};
use replies::Verdict;
use sbe_base::{Sink, Source, Status, WriteFault};
use std::alloc::Global;
use std::marker::Model;
use tagvalue_codec::{DataTags, FieldTable};

/// Cuts a stream of tag-value messages into frames, given pairs of data tags.
#[derive(Drop)]
pub struct RawFramer {
    tags: DataTags,
    table: FieldTable,
    chunk: Chunk,
}

impl Model for RawFramer {
    ghost use Rattle.std.specs.Prelude.{List};
    ghost use Rattle.tagvalue_codec.specs.declared.data_tags.Pair.{Pair};

    ghost Value = { List Pair };

    ghost view = { λ framer. framer.tags };
}

impl RawFramer {
    /// Allocates all memory that the answers to items need.
    ///
    /// # Errors
    ///
    /// If memory runs out.
    pub fn new(alloc: Global, tags: DataTags) -> Result<RawFramer, NoMem>
        ensures { IfOk result (λ framer. framer ≡ tags) }
    {
        let table = FieldTable::new(alloc)?;
        Ok(RawFramer {
            tags,
            table,
            chunk: Chunk::new(),
        })
    }

    /// Takes the next item of a stream. Allocates nothing.
    pub(crate) fn take<I: Source>(
        &mut self,
        stream: &mut RawStream,
        input: &mut I,
    ) -> Result<RawTaken, RawErr>
        ensures same { self.new ≡ self.old }
        ensures takes { stream.old.ended ≡ None → TakesRaw (texts_for self.old stream.old) stream.old stream.new
            (lefts_if stream.old.met (record { before = (I.state input.old).told; after = (I.state input.new).told })) result }
        ensures unread { stream.old.met ≡ true → input.new ≡ input.old }
        ensures text { RawTextOf stream.new result }
        ensures cause { RawCause (I.state input.old).faults (I.state input.new).faults result }
    {
        stream.take(input, &self.tags, &mut self.table)
    }

    /// Writes the frame of a text. Allocates nothing.
    pub(crate) fn answer<O: Sink>(&mut self, text: &[u8], output: &mut O) -> Result<Verdict, Status>
        requires { length text.now < 2 ^ 24 }
        ensures same { self.new ≡ self.old }
        ensures delivers { (notes : Object (List ℕ)) → DeliversDraft (framed text.now)
            (sinks_of (O.state output.old) notes)
            (sinks_of (O.state output.new) notes)
            result }
        ensures wants { Wants true result }
    {
        verdict_of(
            write_frame(output, text, &mut self.chunk),
            Verdict::Answered,
        )
    }

    /// Notes an item that isn't a message. Allocates nothing.
    pub(crate) fn note<N: Sink>(
        &mut self,
        kept: &Kept,
        code: PCode,
        length: u64,
        notes: &mut N,
    ) -> Result<Verdict, Status>
        ensures same { self.new ≡ self.old }
        ensures delivers { (output : Object (List ℕ)) → DeliversDraft (noted kept.now code length)
            (sinks_of output (N.state notes.old))
            (sinks_of output (N.state notes.new))
            result }
        ensures wants { Wants true result }
    {
        let place = Place {
            at: kept.bytes,
            length,
        };
        verdict_of(
            note_garbled(notes, kept.items, code, place, &mut self.chunk),
            Verdict::Refused,
        )
    }
}

/// What becomes of an item after its answer was written.
fn verdict_of(put: Result<(), WriteFault>, verdict: Verdict) -> Result<Verdict, Status>
    ensures told { result ≡ put_so put verdict }
    ensures wants { Wants true result }
{
    match put {
        Ok(()) => Ok(verdict),
        Err(WriteFault) => Err(Status::WriteFault),
    }
}
