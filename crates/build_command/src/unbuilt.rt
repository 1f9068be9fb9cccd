//! The notes of lines that `build` refuses.

ghost use Rattle.std.specs.Prelude.{◌≡◌};
ghost use Rattle.layout_tables.specs.Paths.{IsPathOf};
ghost use Rattle.printers.specs.Prints.{Prints};
ghost use Rattle.sbe_base.specs.Writes.{Writes};
ghost use Rattle.line_values.specs.Refusals.{refusal};
ghost use Rattle.refused_items.specs.Refused.{back_text, refused_line};
ghost use Rattle.tree_codec.specs.Sized.{sized_err};
ghost use Rattle.build_command.specs.Build.{LeavesRoom, line_code, misfit_code, misfit_detail, of_misfit, unread_line};

use json_values::put_text;
use layout_tables::Layout;
use line_values::JCode;
use open_framing::HEAD_BYTES;
use path_text::put_path;
use printers::{Chunk, Printer};
use refused_items::{put_refused_back, put_refused_front, put_refused_number};
use sbe_base::{Sink, WriteFault};
use sbe_wire::NCode;
use tree_codec::EncodeErr;

/// Writes the line of an item whose line isn't a message. Allocates nothing.
///
/// # Errors
///
/// [`WriteFault`] if a write fails. The sink then holds a prefix of the line.
pub fn put_unread<O: Sink>(
    sink: &mut O,
    item: u64,
    code: JCode,
    place: &[u8],
) -> Result<(), WriteFault>
    ensures { Writes (O.state sink.old) (O.state sink.new) (unread_line item (refusal code place.now)) result }
{
    let mut chunk = Chunk::new();
    let mut printer = Printer::new(sink, &mut chunk);
    put_unread_line(&mut printer, item, code, place);
    printer.finish()
}

/// Prints the line of an item whose line isn't a message.
fn put_unread_line<O: Sink>(printer: &mut Printer<'_, O>, item: u64, code: JCode, place: &[u8])
    ensures { Prints O.state printer.old printer.new (unread_line item (refusal code place.now)) }
{
    put_refused_front(printer, item, line_code(code), None);
    put_text(printer, place);
    printer.put(b",\"detail\":\"\"}\n");
}

/// Writes the line of an item whose message can't be written. Requires a path of the message's template. Allocates
/// nothing.
///
/// # Errors
///
/// [`WriteFault`] if a write fails. The sink then holds a prefix of the line.
pub fn put_misfit<O: Sink>(
    sink: &mut O,
    layout: &Layout,
    item: u64,
    template: usize,
    why: &EncodeErr,
) -> Result<(), WriteFault>
    requires way { IsPathOf layout.now template why.now.path }
    requires room { LeavesRoom why.now.code why.now.detail }
    ensures { Writes (O.state sink.old) (O.state sink.new) (refused_line item (of_misfit layout.now template (sized_err why.now))) result }
{
    let mut chunk = Chunk::new();
    let mut printer = Printer::new(sink, &mut chunk);
    put_misfit_line(&mut printer, layout, item, template, why);
    printer.finish()
}

/// Prints the line of an item whose message can't be written. Requires a path of the message's template.
fn put_misfit_line<O: Sink>(
    printer: &mut Printer<'_, O>,
    layout: &Layout,
    item: u64,
    template: usize,
    why: &EncodeErr,
)
    requires way { IsPathOf layout.now template why.now.path }
    requires room { LeavesRoom why.now.code why.now.detail }
    ensures { Prints O.state printer.old printer.new (refused_line item (of_misfit layout.now template (sized_err why.now))) }
{
    put_refused_front(printer, item, misfit_code(why.code), None);
    printer.put(b"\"");
    put_path(printer, layout, template, &why.path);
    put_back(printer, why.code, &why.detail);
}

/// Prints what follows the path: the number of a misfit, if it has one.
fn put_back<O: Sink>(printer: &mut Printer<'_, O>, code: NCode, detail: &i128)
    requires { LeavesRoom code detail.now }
    ensures { Prints O.state printer.old printer.new (back_text (misfit_detail code detail.now)) }
{
    match code {
        NCode::Kind => put_refused_back(printer, b""),
        NCode::Shape => put_refused_back(printer, b""),
        NCode::Full => put_refused_number(printer, &(*detail + HEAD_BYTES as i128)),
        NCode::Range => put_refused_number(printer, detail),
        NCode::EnumUnknown => put_refused_number(printer, detail),
        NCode::SetUnknown => put_refused_number(printer, detail),
        NCode::TextByte => put_refused_number(printer, detail),
        NCode::Count => put_refused_number(printer, detail),
        NCode::Length => put_refused_number(printer, detail),
    }
}

/// The code of why a line isn't a message.
fn line_code(code: JCode) -> &'static str
    ensures { result.now ≡ line_code code }
{
    match code {
        JCode::NotJson => "J01",
        JCode::Shape => "J02",
        JCode::UnknownName => "J03",
        JCode::Kind => "J04",
    }
}

/// The code of why a message can't be written.
fn misfit_code(code: NCode) -> &'static str
    ensures { result.now ≡ misfit_code code }
{
    match code {
        NCode::Range => "N01",
        NCode::EnumUnknown => "N02",
        NCode::SetUnknown => "N03",
        NCode::TextByte => "N04",
        NCode::Kind => "N05",
        NCode::Count => "N06",
        NCode::Length => "N07",
        NCode::Full => "N08",
        NCode::Shape => "N09",
    }
}
