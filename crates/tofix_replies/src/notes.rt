ghost use Rattle.std.specs.Prelude.{◌≡◌, ◌+◌, map};
ghost use Rattle.std.specs.Fmt.{decimal};
ghost use Rattle.open_framing.specs.declared.head.TheConstants.{HEAD_BYTES};
ghost use Rattle.sbe_base.specs.Writes.{Writes};
ghost use Rattle.printers.specs.Prints.{Prints};
ghost use Rattle.refused_items.specs.Refused.{back_text, of_encoding, refused_line};
ghost use Rattle.dump_lines.specs.Refused.{of_fault_in, IsWay};
ghost use Rattle.bridge_terms.specs.Parts.{TagLists};
ghost use Rattle.bridge_terms.specs.Places.{no_delimiter, no_text, Unsent};
ghost use Rattle.bridge_terms.specs.Plans.{Plan};
ghost use Rattle.message_walk.specs.Halts.{halt_of};
ghost use Rattle.message_walk.specs.Rows.{AreRows};
ghost use Rattle.tofix_replies.specs.Unsent.{dotted, dot_path, of_full, of_no_message, of_uncovered, of_why, unsent_line, value_code, IsNear};
ghost use Rattle.message_walk.specs.Ways.{way_of};
ghost use Rattle.way_texts.specs.WayTexts.{way_text};

use dump_lines::put_fault;
use fix_values::V;
use flyweight_view::LastRefusal;
use itoa::Buffer;
use layout_tables::Layout;
use lists::Text;
use message_walk::{Cause, Halt, PlanRow, PutValue, WayStep};
use open_framing::HEAD_BYTES;
use printers::{Chunk, Printer};
use refused_items::{put_encoding, put_refused_back, put_refused_front};
use sbe_base::{Sink, WriteFault};
use sbe_types::Level;
use way_texts::put_way;

/// Writes the line of an item whose frame has another encoding type.
///
/// # Errors
///
/// [`WriteFault`] if a write fails. The sink then holds a prefix of the line. The same holds for the other calls.
pub fn note_encoding<N: Sink>(
    sink: &mut N,
    item: u64,
    encoding: u16,
    chunk: &mut Chunk,
) -> Result<(), WriteFault>
    ensures { Writes (N.state sink.old) (N.state sink.new) (refused_line item (of_encoding encoding)) result }
{
    let mut printer = Printer::new(sink, chunk);
    put_encoding(&mut printer, item, encoding);
    printer.finish()
}

/// Writes the line of an item whose body isn't a message, by what was recorded of its refusal. Requires a path of the
/// message that the refusal names.
pub fn note_fault<N: Sink>(
    sink: &mut N,
    layout: &Layout,
    item: u64,
    last: &LastRefusal,
    chunk: &mut Chunk,
) -> Result<(), WriteFault>
    requires { IsWay layout.now last.now.template last.now.fault.path }
    ensures { Writes (N.state sink.old) (N.state sink.new) (refused_line item (of_fault_in layout.now last.now.template last.now.fault)) result }
{
    let mut printer = Printer::new(sink, chunk);
    put_fault(&mut printer, layout, item, last);
    printer.finish()
}

/// Writes the line of a message for whose template the mapping has no message.
pub fn note_no_message<N: Sink>(
    sink: &mut N,
    item: u64,
    chunk: &mut Chunk,
) -> Result<(), WriteFault>
    ensures { Writes (N.state sink.old) (N.state sink.new) (refused_line item of_no_message) result }
{
    let mut printer = Printer::new(sink, chunk);
    put_no_message(&mut printer, item);
    printer.finish()
}

fn put_no_message<N: Sink>(printer: &mut Printer<'_, N>, item: u64)
    ensures { Prints N.state printer.old printer.new (refused_line item of_no_message) }
{
    put_refused_front(printer, item, "B01", None);
    printer.put(b"\"");
    put_refused_back(printer, b"");
}

/// Writes the line of a message whose template isn't covered, with the names of the path to the first such part.
pub fn note_uncovered<N: Sink>(
    sink: &mut N,
    item: u64,
    path: &[Text],
    chunk: &mut Chunk,
) -> Result<(), WriteFault>
    ensures { Writes (N.state sink.old) (N.state sink.new) (refused_line item (of_uncovered path.now)) result }
{
    let mut printer = Printer::new(sink, chunk);
    put_uncovered(&mut printer, item, path);
    printer.finish()
}

fn put_uncovered<N: Sink>(printer: &mut Printer<'_, N>, item: u64, path: &[Text])
    ensures { Prints N.state printer.old printer.new (refused_line item (of_uncovered path.now)) }
{
    put_refused_front(printer, item, "B02", None);
    printer.put(b"\"");
    put_names(printer, path);
    put_refused_back(printer, b"");
}

/// Prints names, separated by dots.
fn put_names<N: Sink>(printer: &mut Printer<'_, N>, names: &[Text])
    ensures { Prints N.state printer.old printer.new (dot_path names.now) }
{
    let [name, rest @ ..] = names else {
        return;
    };
    printer.put(name.as_slice());
    put_dotted(printer, rest);
}

/// Prints names with a dot before each.
fn put_dotted<N: Sink>(printer: &mut Printer<'_, N>, names: &[Text])
    ensures { Prints N.state printer.old printer.new (dotted names.now) }
{
    for name in names {
        printer.put(b".");
        printer.put(name.as_slice());
    }
}

/// Writes the line of a message with a place that isn't written, by the rows of its plan and the root of its template.
pub fn note_halt<N: Sink, R: PutValue>(
    sink: &mut N,
    item: u64,
    rows: &[PlanRow<R>],
    root: &Level,
    halt: &Halt,
    chunk: &mut Chunk,
) -> Result<(), WriteFault>
    ensures { (lists : TagLists) (p : Plan) (u : Unsent) → AreRows R.spells lists p rows.now → halt.now ≡ halt_of u → IsNear u
        → Writes (N.state sink.old) (N.state sink.new) (unsent_line item root.now p u) result }
{
    let mut printer = Printer::new(sink, chunk);
    put_halt(&mut printer, item, rows, root, halt);
    printer.finish()
}

fn put_halt<N: Sink, R: PutValue>(
    printer: &mut Printer<'_, N>,
    item: u64,
    rows: &[PlanRow<R>],
    root: &Level,
    halt: &Halt,
)
    ensures same_reference { printer.new.sink.ghost_name ≡ printer.old.sink.ghost_name }
    ensures text { (lists : TagLists) (p : Plan) (u : Unsent) → AreRows R.spells lists p rows.now → halt.now ≡ halt_of u → IsNear u
        → Prints N.state printer.old printer.new (unsent_line item root.now p u) }
{
    match halt.cause {
        Cause::Full(needed) => put_full(printer, item, needed),
        Cause::NoText(why) => put_no_text(printer, item, rows, root, halt.way.steps(), why),
        Cause::NoDelimiter => put_no_delimiter(printer, item, rows, root, halt.way.steps()),
    }
}

/// Prints the line of a message with a value that has no text.
fn put_no_text<N: Sink, R: PutValue>(
    printer: &mut Printer<'_, N>,
    item: u64,
    rows: &[PlanRow<R>],
    root: &Level,
    way: &[WayStep],
    why: V,
)
    ensures same_reference { printer.new.sink.ghost_name ≡ printer.old.sink.ghost_name }
    ensures text { (lists : TagLists) (p : Plan) → AreRows R.spells lists p rows.now
        → Prints N.state printer.old printer.new (refused_line item (of_why (no_text why) (way_text p root.now (map way_of way.now)))) }
{
    put_refused_front(printer, item, "B03", None);
    printer.put(b"\"");
    put_way(printer, rows, root, way);
    put_refused_back(printer, value_code(why).as_bytes());
}

/// Prints the line of a message with an entry that doesn't begin with its delimiter.
fn put_no_delimiter<N: Sink, R: PutValue>(
    printer: &mut Printer<'_, N>,
    item: u64,
    rows: &[PlanRow<R>],
    root: &Level,
    way: &[WayStep],
)
    ensures same_reference { printer.new.sink.ghost_name ≡ printer.old.sink.ghost_name }
    ensures text { (lists : TagLists) (p : Plan) → AreRows R.spells lists p rows.now
        → Prints N.state printer.old printer.new (refused_line item (of_why no_delimiter (way_text p root.now (map way_of way.now)))) }
{
    put_refused_front(printer, item, "B06", None);
    printer.put(b"\"");
    put_way(printer, rows, root, way);
    put_refused_back(printer, b"");
}

/// Prints the line of a message whose text needs `needed` bytes, which are too many.
fn put_full<N: Sink>(printer: &mut Printer<'_, N>, item: u64, needed: u64)
    ensures { Prints N.state printer.old printer.new (refused_line item (of_full needed)) }
{
    put_refused_front(printer, item, "N08", None);
    printer.put(b"\"");
    put_bytes(printer, needed);
}

/// Prints what follows the path: the number of bytes, including the head of a frame.
fn put_bytes<N: Sink>(printer: &mut Printer<'_, N>, needed: u64)
    ensures { Prints N.state printer.old printer.new (back_text (decimal (needed + HEAD_BYTES))) }
{
    let mut buffer = Buffer::new();
    let bytes = buffer.format(needed as u128 + HEAD_BYTES as u128);
    put_refused_back(printer, bytes.as_bytes());
}

/// The code of why a value has no text, or a text no value.
pub fn value_code(why: V) -> &'static str
    ensures { result.now ≡ value_code why }
{
    match why {
        V::Spelling => "V1",
        V::Range => "V2",
        V::Inexact => "V3",
        V::Soh => "V4",
        V::Empty => "V5",
        V::UnknownCode => "V6",
    }
}
