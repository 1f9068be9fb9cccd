ghost use Rattle.std.specs.Prelude.{◌≡◌, ◌<◌, ◌^◌, decimal, length};
ghost use Rattle.printers.specs.Prints.{Prints};
ghost use Rattle.sbe_base.specs.Writes.{Writes};
ghost use Rattle.open_framing.specs.Frames.{frame};
ghost use Rattle.open_framing.specs.declared.head.TheConstants.{TAG_VALUE};
ghost use Rattle.refused_items.specs.Refused.{back_text, refused_line};
ghost use Rattle.raw_steps.specs.RawReplies.{code_text, garbled_at};

use open_framing::{HEAD_BYTES, Head, TAG_VALUE, put_head};
use printers::{Chunk, Printer};
use raw_fix::PCode;
use refused_items::{put_refused_front, put_refused_number};
use sbe_base::{Sink, WriteFault};

/// Writes the frame of a text.
pub fn write_frame<O: Sink>(sink: &mut O, text: &[u8], chunk: &mut Chunk) -> Result<(), WriteFault>
    requires { length text.now < 2 ^ 24 }
    ensures { Writes (O.state sink.old) (O.state sink.new) (frame TAG_VALUE text.now) result }
{
    let mut printer = Printer::new(sink, chunk);
    put_frame(&mut printer, text);
    printer.finish()
}

/// Prints the frame of a text.
fn put_frame<O: Sink>(printer: &mut Printer<'_, O>, text: &[u8])
    requires { length text.now < 2 ^ 24 }
    ensures { Prints O.state printer.old printer.new (frame TAG_VALUE text.now) }
{
    let length = (text.len() + HEAD_BYTES) as u32;
    let mut head = [0; HEAD_BYTES];
    put_head(
        &Head {
            length,
            encoding: TAG_VALUE,
        },
        &mut head,
    );
    printer.put(&head);
    printer.put(text);
}

/// Where bytes that aren't a message are in the input, and how many they are.
#[derive(Clone, Copy, Debug, PartialEq, Eq)]
pub struct Place {
    pub at: u64,
    pub length: u64,
}

/// Writes the line of an item that isn't a message.
pub fn note_garbled<N: Sink>(
    sink: &mut N,
    item: u64,
    code: PCode,
    place: Place,
    chunk: &mut Chunk,
) -> Result<(), WriteFault>
    ensures { Writes (N.state sink.old) (N.state sink.new) (refused_line item (garbled_at code place.at place.length)) result }
{
    let mut printer = Printer::new(sink, chunk);
    put_garbled(&mut printer, item, code, place);
    printer.finish()
}

/// Prints the line of an item that isn't a message.
fn put_garbled<N: Sink>(printer: &mut Printer<'_, N>, item: u64, code: PCode, place: Place)
    ensures { Prints N.state printer.old printer.new (refused_line item (garbled_at code place.at place.length)) }
{
    put_refused_front(printer, item, code_name(code), Some(place.at as usize));
    printer.put(b"\"");
    put_detail(printer, place.length);
}

/// Prints what follows the path: how many bytes there are.
fn put_detail<N: Sink>(printer: &mut Printer<'_, N>, length: u64)
    ensures { Prints N.state printer.old printer.new (back_text (decimal length)) }
{
    put_refused_number(printer, &(length as i128));
}

/// The code of bytes that aren't a message, as it is printed.
fn code_name(code: PCode) -> &'static str
    ensures { result.now ≡ code_text code }
{
    match code {
        PCode::Prefix => "P01",
        PCode::Ends => "P02",
        PCode::Text => "P03",
    }
}
