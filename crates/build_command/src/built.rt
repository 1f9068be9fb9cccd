//! The answer of `build` to a line: the frame of its message, or a note of why there is none.

ghost use Rattle.std.specs.Prelude.{◌≡◌, ◌<◌, ◌^◌, ℕ, List, length, slice_get};
ghost use Rattle.std.specs.Option.{IsSome};
ghost use Rattle.sbe_base.specs.Writes.{Writes};
ghost use Rattle.printers.specs.Prints.{Prints};
ghost use Rattle.open_framing.specs.Frames.{frame};
ghost use Rattle.sbe_wire.specs.Misfit.{misfit};
ghost use Rattle.build_command.specs.Build.{body_limit, built_reply, frame_reply, message_reply};
ghost use Rattle.replies.specs.Drafts.{DeliversDraft};
ghost use Rattle.sbe_base.specs.Objects.{Object};
ghost use Rattle.replies.specs.Outside.{sinks_of};

use crate::space::LineSpace;
use crate::target::Target;
use crate::unbuilt::{put_misfit, put_unread};
use dump_lines::encoding_of;
use layout_tables::Layout;
use line_reading::msg_of_line_with;
use line_values::LineFault;
use open_framing::{HEAD_BYTES, Head, put_head};
use printed_lines::body_of_line;
use printers::{Chunk, Printer};
use replies::Verdict;
use sbe_base::{Sink, Status, WriteFault};
use sbe_types::Msg;
use std::alloc::Global;
use tree_codec::encode;
use typed_writer::FrameBuf;

/// Writes the answer to a line: the frame of its message to the output, or the line of a refused item to the notes. A
/// line in the form in which messages are printed takes a short path to its body, which allocates nothing.
///
/// # Errors
///
/// `WriteFault` if a write fails; `NoMemory` if memory runs out, and then nothing is written.
pub fn answer_built<O: Sink, N: Sink>(
    alloc: Global,
    target: &Target,
    item: u64,
    line: &[u8],
    space: &mut LineSpace,
    output: &mut O,
    notes: &mut N,
) -> Result<Verdict, Status>
    requires room { space.old.buffer.limit < 2 ^ 24 }
    ensures answers { (limit : ℕ) → space.old.buffer.limit ≡ body_limit limit → DeliversDraft (built_reply target.now limit item line.now)
        (sinks_of (O.state output.old) (N.state notes.old))
        (sinks_of (O.state output.new) (N.state notes.new))
        result }
    ensures limit { space.new.buffer.limit ≡ space.old.buffer.limit }
{
    if line.is_empty() {
        return Ok(Verdict::Answered);
    }
    let layout = target.printed.lines().layout();
    if body_of_line(
        &target.printed,
        line,
        space.buffer.limit(),
        &mut space.draft,
    ) {
        return answer_body(layout, space.draft.bytes(), &mut space.chunk, output);
    }
    match msg_of_line_with(alloc, &target.checked, line, &mut *space.json) {
        Ok(message) => answer_message(
            layout,
            item,
            &message,
            &mut space.buffer,
            &mut space.chunk,
            output,
            notes,
        ),
        Err(LineFault::Refused(code, place)) => {
            match put_unread(notes, item, code, place.as_slice()) {
                Ok(()) => Ok(Verdict::Refused),
                Err(WriteFault) => Err(Status::WriteFault),
            }
        }
        Err(LineFault::Memory) => Err(Status::NoMemory),
    }
}

/// Writes the answer to a message of one of the schema's templates. Allocates nothing.
///
/// # Errors
///
/// `WriteFault` if a write fails.
pub fn answer_message<O: Sink, N: Sink>(
    layout: &Layout,
    item: u64,
    message: &Msg,
    buffer: &mut FrameBuf,
    chunk: &mut Chunk,
    output: &mut O,
    notes: &mut N,
) -> Result<Verdict, Status>
    requires room { buffer.old.limit < 2 ^ 24 }
    requires known { IsSome (slice_get layout.now.messages message.now.template) }
    ensures answers { DeliversDraft (message_reply layout.now item message.now (misfit layout.now message.now buffer.old.limit))
        (sinks_of (O.state output.old) (N.state notes.old))
        (sinks_of (O.state output.new) (N.state notes.new))
        result }
    ensures limit { buffer.new.limit ≡ buffer.old.limit }
{
    let _schema = layout.schema();
    match encode(layout, message, buffer) {
        Ok(_) => answer_body(layout, buffer.bytes(), chunk, output),
        Err(why) => match put_misfit(notes, layout, item, message.template, &why) {
            Ok(()) => Ok(Verdict::Refused),
            Err(WriteFault) => Err(Status::WriteFault),
        },
    }
}

/// Writes the answer that is the frame of a body. Allocates nothing.
///
/// # Errors
///
/// `WriteFault` if a write fails.
#[inline(always)]
pub fn answer_body<O: Sink>(
    layout: &Layout,
    body: &[u8],
    chunk: &mut Chunk,
    output: &mut O,
) -> Result<Verdict, Status>
    requires { length body.now < 2 ^ 24 }
    ensures { (notes : Object (List ℕ)) → DeliversDraft (frame_reply layout.now body.now)
        (sinks_of (O.state output.old) notes)
        (sinks_of (O.state output.new) notes)
        result }
{
    match write_frame(output, encoding_of(layout.order()), body, chunk) {
        Ok(()) => Ok(Verdict::Answered),
        Err(WriteFault) => Err(Status::WriteFault),
    }
}

/// Writes the frame of a body.
fn write_frame<O: Sink>(
    sink: &mut O,
    encoding: u16,
    body: &[u8],
    chunk: &mut Chunk,
) -> Result<(), WriteFault>
    requires { length body.now < 2 ^ 24 }
    ensures { Writes (O.state sink.old) (O.state sink.new) (frame encoding body.now) result }
{
    let mut printer = Printer::new(sink, chunk);
    put_frame(&mut printer, encoding, body);
    printer.finish()
}

/// Prints the frame of a body.
fn put_frame<O: Sink>(printer: &mut Printer<'_, O>, encoding: u16, body: &[u8])
    requires { length body.now < 2 ^ 24 }
    ensures { Prints O.state printer.old printer.new (frame encoding body.now) }
{
    let length = (body.len() + HEAD_BYTES) as u32;
    let mut head = [0; HEAD_BYTES];
    put_head(&Head { length, encoding }, &mut head);
    printer.put(&head);
    printer.put(body);
}
