//! The answer to a frame whose body is copied.

ghost use Rattle.std.specs.Prelude.{◌≡◌, ◌<◌, ◌^◌, ℕ, List, length};
ghost use Rattle.open_framing.specs.Frames.{frame};
ghost use Rattle.printers.specs.Prints.{Prints};
ghost use Rattle.replies.specs.Drafts.{DeliversDraft};
ghost use Rattle.replies.specs.Outside.{sinks_of};
ghost use Rattle.sbe_base.specs.Objects.{Object};
ghost use Rattle.sbe_base.specs.Writes.{Writes};
ghost use Rattle.version_copies.specs.Copies.{copy_bytes};
ghost use Rattle.regrade_command.specs.Regrade.{copy_reply};

use dump_lines::encoding_of;
use layout_tables::Layout;
use open_framing::{HEAD_BYTES, Head, put_head};
use printers::{Chunk, Printer};
use replies::Verdict;
use sbe_base::{Sink, Status, WriteFault};
use version_copies::Copied;

/// Writes the answer that is the frame of a copy. Allocates nothing.
///
/// # Errors
///
/// `WriteFault` if a write fails.
pub(crate) fn answer_copy<O: Sink>(
    written: &Layout,
    copy: &Copied<'_>,
    output: &mut O,
) -> Result<Verdict, Status>
    requires { length (copy_bytes copy.now) < 2 ^ 24 }
    ensures { (notes : Object (List ℕ)) → DeliversDraft (copy_reply written.now (copy_bytes copy.now))
        (sinks_of (O.state output.old) notes)
        (sinks_of (O.state output.new) notes)
        result }
{
    match write_copy(output, encoding_of(written.order()), copy) {
        Ok(()) => Ok(Verdict::Regraded {
            dropped: 0,
            filled: 0,
        }),
        Err(WriteFault) => Err(Status::WriteFault),
    }
}

/// Writes the frame of a copy.
fn write_copy<O: Sink>(sink: &mut O, encoding: u16, copy: &Copied<'_>) -> Result<(), WriteFault>
    requires { length (copy_bytes copy.now) < 2 ^ 24 }
    ensures { Writes (O.state sink.old) (O.state sink.new) (frame encoding (copy_bytes copy.now)) result }
{
    let mut chunk = Chunk::new();
    let mut printer = Printer::new(sink, &mut chunk);
    put_copy(&mut printer, encoding, copy);
    printer.finish()
}

/// Prints the frame of a copy.
fn put_copy<O: Sink>(printer: &mut Printer<'_, O>, encoding: u16, copy: &Copied<'_>)
    requires { length (copy_bytes copy.now) < 2 ^ 24 }
    ensures { Prints O.state printer.old printer.new (frame encoding (copy_bytes copy.now)) }
{
    let length = (copy.header.len() + copy.rest.len() + HEAD_BYTES) as u32;
    let mut head = [0; HEAD_BYTES];
    put_head(&Head { length, encoding }, &mut head);
    printer.put(&head);
    printer.put(copy.header);
    printer.put(copy.rest);
}
