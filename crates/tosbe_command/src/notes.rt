//! The notes of texts that aren't translated.

ghost use Rattle.std.specs.Fmt.{decimal};
ghost use Rattle.printers.specs.Prints.{Prints};
ghost use Rattle.sbe_base.specs.Writes.{Writes};
ghost use Rattle.refused_items.specs.Refused.{refused_line};
ghost use Rattle.field_judge.specs.Refusals.{refusal_of};
ghost use Rattle.tosbe_command.specs.Unsent.{at_tag, of_refusal, of_several};

use field_judge::Refused;
use itoa::Buffer;
use printers::{Chunk, Printer};
use refused_items::{put_refused_back, put_refused_front};
use sbe_base::{Sink, WriteFault};
use tofix_replies::value_code;

/// Writes the line of a text whose MsgType several templates have.
///
/// # Errors
///
/// [`WriteFault`] if a write fails. The sink then holds a prefix of the line. The same holds for the other call.
pub(crate) fn note_several<N: Sink>(
    sink: &mut N,
    item: u64,
    chunk: &mut Chunk,
) -> Result<(), WriteFault>
    ensures { Writes (N.state sink.old) (N.state sink.new) (refused_line item of_several) result }
{
    let mut printer = Printer::new(sink, chunk);
    put_several(&mut printer, item);
    printer.finish()
}

fn put_several<N: Sink>(printer: &mut Printer<'_, N>, item: u64)
    ensures { Prints N.state printer.old printer.new (refused_line item of_several) }
{
    put_refused_front(printer, item, "B01", None);
    printer.put(b"\"");
    put_refused_back(printer, b"several");
}

/// Writes the line of a text whose fields are refused.
pub(crate) fn note_refused<N: Sink>(
    sink: &mut N,
    item: u64,
    why: Refused,
    chunk: &mut Chunk,
) -> Result<(), WriteFault>
    ensures { Writes (N.state sink.old) (N.state sink.new) (refused_line item (of_refusal (refusal_of why))) result }
{
    let mut printer = Printer::new(sink, chunk);
    put_refused(&mut printer, item, why);
    printer.finish()
}

fn put_refused<N: Sink>(printer: &mut Printer<'_, N>, item: u64, why: Refused)
    ensures { Prints N.state printer.old printer.new (refused_line item (of_refusal (refusal_of why))) }
{
    match why {
        Refused::Unreadable(tag, v) => put_at_tag(printer, item, "B03", tag, value_code(v)),
        Refused::Unknown(tag) => put_at_tag(printer, item, "B04", tag, ""),
        Refused::Repeated(tag) => put_at_tag(printer, item, "B05", tag, ""),
        Refused::Misgrouped(tag) => put_at_tag(printer, item, "B06", tag, ""),
        Refused::Missing(tag) => put_at_tag(printer, item, "B07", tag, ""),
        Refused::Unlike(tag) => put_at_tag(printer, item, "B08", tag, ""),
    }
}

/// Prints a line with a tag as its path.
fn put_at_tag<N: Sink>(printer: &mut Printer<'_, N>, item: u64, code: &str, tag: u32, detail: &str)
    ensures { Prints N.state printer.old printer.new (refused_line item (at_tag code.now tag detail.now)) }
{
    put_refused_front(printer, item, code, None);
    printer.put(b"\"");
    put_tag(printer, tag);
    put_refused_back(printer, detail.as_bytes());
}

fn put_tag<N: Sink>(printer: &mut Printer<'_, N>, tag: u32)
    ensures { Prints N.state printer.old printer.new (decimal tag) }
{
    let mut buffer = Buffer::new();
    printer.put(buffer.format(tag).as_bytes());
}
