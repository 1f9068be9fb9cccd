ghost use Rattle.std.specs.Prelude.{◌≡◌, ◌<◌};
ghost use Rattle.printers.specs.Prints.{Prints};
ghost use Rattle.sbe_base.specs.Writes.{Writes};
ghost use Rattle.refused_items.specs.Refused.{back_text, of_encoding, refused_line};
ghost use Rattle.tagvalue_codec.specs.Texts.{three_digits};
ghost use Rattle.fixcheck_command.specs.FixCheck.{fault_code, fault_detail, of_fault, text_line, HasDigits};

use json_values::{put_count, put_text};
use printers::{Chunk, Printer};
use refused_items::{put_encoding, put_refused_back, put_refused_front, put_refused_number};
use sbe_base::{Sink, WriteFault};
use tagvalue_codec::{FixFault, TCode};

/// Writes the line of a text with this type and this number of fields.
pub fn write_text<O: Sink>(
    sink: &mut O,
    item: u64,
    kind: &[u8],
    fields: usize,
    chunk: &mut Chunk,
) -> Result<(), WriteFault>
    ensures { Writes (O.state sink.old) (O.state sink.new) (text_line item kind.now fields) result }
{
    let mut printer = Printer::new(sink, chunk);
    put_text_line(&mut printer, item, kind, fields);
    printer.finish()
}

/// Prints the line of a text.
fn put_text_line<O: Sink>(printer: &mut Printer<'_, O>, item: u64, kind: &[u8], fields: usize)
    ensures { Prints O.state printer.old printer.new (text_line item kind.now fields) }
{
    printer.put(b"{\"item\":");
    put_count(printer, item);
    printer.put(b",\"type\":");
    put_text(printer, kind);
    printer.put(b",\"fields\":");
    put_count(printer, fields as u64);
    printer.put(b"}\n");
}

/// Writes the line of an item whose frame has another encoding type.
pub fn note_encoding<N: Sink>(
    sink: &mut N,
    item: u64,
    encoding: u16,
    chunk: &mut Chunk,
) -> Result<(), WriteFault>
    ensures { Writes (N.state sink.old) (N.state sink.new) (refused_line item (of_encoding encoding)) result }
{
    let mut printer = Printer::new(sink, chunk);
    put_encoding(&mut printer, item, encoding);
    printer.finish()
}

/// Writes the line of an item whose body isn't a text.
pub fn note_fault<N: Sink>(
    sink: &mut N,
    item: u64,
    fault: &FixFault,
    chunk: &mut Chunk,
) -> Result<(), WriteFault>
    requires { HasDigits fault.now.code fault.now.detail }
    ensures { Writes (N.state sink.old) (N.state sink.new) (refused_line item (of_fault fault.now)) result }
{
    let mut printer = Printer::new(sink, chunk);
    put_fault(&mut printer, item, fault);
    printer.finish()
}

/// Prints the line of an item whose body isn't a text.
fn put_fault<N: Sink>(printer: &mut Printer<'_, N>, item: u64, fault: &FixFault)
    requires { HasDigits fault.now.code fault.now.detail }
    ensures { Prints N.state printer.old printer.new (refused_line item (of_fault fault.now)) }
{
    put_refused_front(printer, item, fault_code(fault.code), Some(fault.offset));
    printer.put(b"\"");
    put_back(printer, fault.code, fault.detail);
}

/// Prints what follows the path: the right number or the right sum, if the fault gives one.
fn put_back<N: Sink>(printer: &mut Printer<'_, N>, code: TCode, detail: u64)
    requires { HasDigits code detail }
    ensures { Prints N.state printer.old printer.new (back_text (fault_detail code detail)) }
{
    match code {
        TCode::LengthWrong => put_refused_number(printer, &(detail as i128)),
        TCode::CheckSum => put_refused_back(printer, &three_digits(detail)),
        TCode::FirstTag => put_refused_back(printer, b""),
        TCode::BodyLength => put_refused_back(printer, b""),
        TCode::MsgType => put_refused_back(printer, b""),
        TCode::Field => put_refused_back(printer, b""),
        TCode::DataLength => put_refused_back(printer, b""),
        TCode::TooMany => put_refused_back(printer, b""),
    }
}

/// A number below a thousand in three digits.
fn three_digits(n: u64) -> [u8; 3]
    requires { n < 1000 }
    ensures { result ≡ three_digits n }
{
    [
        b'0' + (n / 100) as u8,
        b'0' + (n / 10 % 10) as u8,
        b'0' + (n % 10) as u8,
    ]
}

/// The code of a fault, as it is printed.
fn fault_code(code: TCode) -> &'static str
    ensures { result.now ≡ fault_code code }
{
    match code {
        TCode::FirstTag => "T01",
        TCode::BodyLength => "T02",
        TCode::LengthWrong => "T03",
        TCode::MsgType => "T04",
        TCode::CheckSum => "T05",
        TCode::Field => "T06",
        TCode::DataLength => "T07",
        TCode::TooMany => "T08",
    }
}
