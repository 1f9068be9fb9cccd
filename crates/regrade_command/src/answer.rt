//! The answer of `regrade` to a frame.

ghost use Rattle.std.specs.Prelude.{◌≡◌, ◌≤◌, ◌<◌, ◌^◌, ℕ, Some, Err, length, slice_get};
ghost use Rattle.std.specs.Option.{IsSome};
ghost use Rattle.replies.specs.Drafts.{DeliversDraft};
ghost use Rattle.replies.specs.Outside.{sinks_of};
ghost use Rattle.sbe_base.specs.Objects.{Object};
ghost use Rattle.sbe_base.specs.Writes.{Writes};
ghost use Rattle.sbe_wire.specs.Misfit.{misfit};
ghost use Rattle.sbe_wire.specs.Reading.{message_of};
ghost use Rattle.build_command.specs.Build.{body_limit};
ghost use Rattle.regrade_laws.specs.Regraded.{moved, regraded, NoFill};
ghost use Rattle.regrade_laws.specs.Counts.{dropped, filled};
ghost use Rattle.regrade.specs.Regrades.{LiesInFrame};
ghost use Rattle.regrade_command.specs.Regrade.{body_reply, counted_verdict, lack_line, refused_so, regrade_reply, rewritten_reply, reply_by, written_reply};

use crate::copies::answer_copy;
use crate::lines::{note_encoding, note_fault, note_no_fill, note_no_template};
use crate::pair::SchemaPair;
use crate::space::FrameSpace;
use build_command::answer_message;
use dump_lines::encoding_of;
use regrade::{RegradeErr, Regraded, regrade};
use replies::Verdict;
use sbe_base::{Sink, Status, WriteFault};
use sbe_types::{Msg, Path};
use tree_codec::{DecodeErr, decode};

/// Writes the answer to a frame: that of its message in the other version to the output, or the line of a refused item to the
/// notes. If only the version has to change, the body is copied, and no message is made of it.
///
/// # Errors
///
/// `WriteFault` if a write fails; `NoMemory` if memory runs out, and then nothing is written.
pub(crate) fn answer_frame<O: Sink, N: Sink>(
    pair: &SchemaPair,
    item: u64,
    encoding: u16,
    body: &[u8],
    space: &mut FrameSpace,
    output: &mut O,
    notes: &mut N,
) -> Result<Verdict, Status>
    requires room { space.old.buffer.limit < 2 ^ 24 }
    requires body { length body.now ≤ 16_777_216 }
    ensures answers { (limit : ℕ) → space.old.buffer.limit ≡ body_limit limit
        → DeliversDraft (regrade_reply (record { pair = pair.now; frame = limit }) item (record { encoding = encoding; body = body.now }))
        (sinks_of (O.state output.old) (N.state notes.old))
        (sinks_of (O.state output.new) (N.state notes.new))
        result }
    ensures limit { space.new.buffer.limit ≡ space.old.buffer.limit }
{
    if encoding != encoding_of(pair.read.order()) {
        return refused(note_encoding(notes, item, encoding));
    }
    let limit = space.buffer.limit();
    if let Some(copy) = pair.copied(body, limit, &mut space.last) {
        return answer_copy(&pair.written, &copy, output);
    }
    answer_body(pair, item, body, space, output, notes)
}

/// Writes the answer to a body by its message.
fn answer_body<O: Sink, N: Sink>(
    pair: &SchemaPair,
    item: u64,
    body: &[u8],
    space: &mut FrameSpace,
    output: &mut O,
    notes: &mut N,
) -> Result<Verdict, Status>
    requires room { space.old.buffer.limit < 2 ^ 24 }
    requires body { length body.now ≤ 16_777_216 }
    ensures answers { (limit : ℕ) → space.old.buffer.limit ≡ body_limit limit
        → DeliversDraft (body_reply (record { pair = pair.now; frame = limit }) item body.now (message_of pair.now.from body.now))
        (sinks_of (O.state output.old) (N.state notes.old))
        (sinks_of (O.state output.new) (N.state notes.new))
        result }
    ensures limit { space.new.buffer.limit ≡ space.old.buffer.limit }
{
    match decode(space.alloc, &pair.read, body) {
        Ok(message) => answer_read(pair, item, &message, space, output, notes),
        Err(DecodeErr::Refused(refusal)) => {
            refused(note_fault(notes, &pair.read, item, &refusal))
        }
        Err(DecodeErr::Memory) => Err(Status::NoMemory),
    }
}

/// Writes the answer to a message of the schema that is read.
fn answer_read<O: Sink, N: Sink>(
    pair: &SchemaPair,
    item: u64,
    message: &Msg,
    space: &mut FrameSpace,
    output: &mut O,
    notes: &mut N,
) -> Result<Verdict, Status>
    requires room { space.old.buffer.limit < 2 ^ 24 }
    requires lies { LiesInFrame pair.now.from message.now }
    ensures answers { (limit : ℕ) → space.old.buffer.limit ≡ body_limit limit
        → DeliversDraft (rewritten_reply (record { pair = pair.now; frame = limit }) item message.now)
        (sinks_of (O.state output.old) (N.state notes.old))
        (sinks_of (O.state output.new) (N.state notes.new))
        result }
    ensures limit { space.new.buffer.limit ≡ space.old.buffer.limit }
{
    match regrade(space.alloc, &pair.from, &pair.to, message) {
        Ok(regraded) => answer_regraded(pair, item, &regraded, space, output, notes),
        Err(RegradeErr::NoTemplate) => refused(note_no_template(notes, item)),
        Err(RegradeErr::NoFill(path)) => refused(note_lack(pair, item, message, &path, notes)),
        Err(RegradeErr::Memory) => Err(Status::NoMemory),
    }
}

/// Writes the answer to a message that was rewritten.
fn answer_regraded<O: Sink, N: Sink>(
    pair: &SchemaPair,
    item: u64,
    regraded: &Regraded,
    space: &mut FrameSpace,
    output: &mut O,
    notes: &mut N,
) -> Result<Verdict, Status>
    requires room { space.old.buffer.limit < 2 ^ 24 }
    requires known { IsSome (slice_get pair.now.to.messages regraded.now.msg.template) }
    ensures answers { DeliversDraft (written_reply pair.now.to item regraded.now (misfit pair.now.to regraded.now.msg space.old.buffer.limit))
        (sinks_of (O.state output.old) (N.state notes.old))
        (sinks_of (O.state output.new) (N.state notes.new))
        result }
    ensures limit { space.new.buffer.limit ≡ space.old.buffer.limit }
{
    let answer = answer_message(
        &pair.written,
        item,
        &regraded.msg,
        &mut space.buffer,
        &mut space.chunk,
        output,
        notes,
    );
    counted(answer, regraded)
}

/// The same answer, with the counts of a message that was written.
fn counted(answer: Result<Verdict, Status>, regraded: &Regraded) -> Result<Verdict, Status>
    ensures { result ≡ counted_verdict regraded.now answer }
{
    match answer {
        Ok(Verdict::Answered) => Ok(Verdict::Regraded {
            dropped: regraded.dropped,
            filled: regraded.filled,
        }),
        other => other,
    }
}

/// Notes a message that lacks a part without an empty value, by the part's path in the schema that is written. Requires such a
/// message.
fn note_lack<N: Sink>(
    pair: &SchemaPair,
    item: u64,
    message: &Msg,
    path: &Path,
    notes: &mut N,
) -> Result<(), WriteFault>
    requires known { IsSome (slice_get pair.now.from.messages message.now.template) }
    requires lacks { regraded pair.now.from pair.now.to message.now ≡ Err (NoFill path.now) }
    ensures { Writes (N.state notes.old) (N.state notes.new) (lack_line pair.now.to item path.now (moved pair.now.from pair.now.to message.now)) result }
{
    let id = pair.read.template_id(message.template);
    match pair.written.template(id) {
        Some(template) => note_no_fill(notes, &pair.written, item, template, path),
        None => note_no_template(notes, item),
    }
}

/// What becomes of an item whose refusal was noted.
fn refused(noted: Result<(), WriteFault>) -> Result<Verdict, Status>
    ensures { result ≡ refused_so noted }
{
    match noted {
        Ok(()) => Ok(Verdict::Refused),
        Err(WriteFault) => Err(Status::WriteFault),
    }
}
