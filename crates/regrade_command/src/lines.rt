//! The notes of frames that `regrade` refuses.

ghost use Rattle.std.specs.Prelude.{◌≡◌};
ghost use Rattle.layout_tables.specs.Paths.{IsPathOf};
ghost use Rattle.printers.specs.Prints.{Prints};
ghost use Rattle.sbe_base.specs.Writes.{Writes};
ghost use Rattle.body_walk.specs.Refusals.{refused};
ghost use Rattle.dump_lines.specs.Refused.{IsWay, of_fault_in};
ghost use Rattle.refused_items.specs.Refused.{of_encoding, refused_line};
ghost use Rattle.regrade_command.specs.Regrade.{of_no_fill, of_no_template};

use dump_lines::put_refusal;
use flyweight_view::Refusal;
use layout_tables::Layout;
use path_text::put_path;
use printers::{Chunk, Printer};
use refused_items::{put_encoding, put_refused_back, put_refused_front};
use sbe_base::{Sink, WriteFault};
use sbe_types::Path;

/// Notes a frame of another encoding type.
pub(crate) fn note_encoding<N: Sink>(
    notes: &mut N,
    item: u64,
    encoding: u16,
) -> Result<(), WriteFault>
    ensures { Writes (N.state notes.old) (N.state notes.new) (refused_line item (of_encoding encoding)) result }
{
    let mut chunk = Chunk::new();
    let mut printer = Printer::new(notes, &mut chunk);
    put_encoding(&mut printer, item, encoding);
    printer.finish()
}

/// Notes a body that isn't a message. Requires a path of the message that the refusal names.
pub(crate) fn note_fault<N: Sink>(
    notes: &mut N,
    layout: &Layout,
    item: u64,
    refusal: &Refusal,
) -> Result<(), WriteFault>
    requires { IsWay layout.now refusal.now.template refusal.now.path }
    ensures { Writes (N.state notes.old) (N.state notes.new) (refused_line item (of_fault_in layout.now refusal.now.template (refused refusal.now))) result }
{
    let mut chunk = Chunk::new();
    let mut printer = Printer::new(notes, &mut chunk);
    put_refusal(&mut printer, layout, item, refusal);
    printer.finish()
}

/// Notes a message of which the other version has no template.
pub(crate) fn note_no_template<N: Sink>(notes: &mut N, item: u64) -> Result<(), WriteFault>
    ensures { Writes (N.state notes.old) (N.state notes.new) (refused_line item of_no_template) result }
{
    let mut chunk = Chunk::new();
    let mut printer = Printer::new(notes, &mut chunk);
    put_no_template(&mut printer, item);
    printer.finish()
}

/// Prints the line of a message of which the other version has no template.
fn put_no_template<N: Sink>(printer: &mut Printer<'_, N>, item: u64)
    ensures { Prints N.state printer.old printer.new (refused_line item of_no_template) }
{
    put_refused_front(printer, item, "G03", None);
    printer.put(b"\"");
    put_refused_back(printer, b"");
}

/// Notes a message that lacks a part without an empty value, by the part's path in the other version. Requires a path of that
/// template.
pub(crate) fn note_no_fill<N: Sink>(
    notes: &mut N,
    layout: &Layout,
    item: u64,
    template: usize,
    path: &Path,
) -> Result<(), WriteFault>
    requires { IsPathOf layout.now template path.now }
    ensures { Writes (N.state notes.old) (N.state notes.new) (refused_line item (of_no_fill layout.now template path.now)) result }
{
    let mut chunk = Chunk::new();
    let mut printer = Printer::new(notes, &mut chunk);
    put_no_fill(&mut printer, layout, item, template, path);
    printer.finish()
}

/// Prints the line of a message that lacks a part without an empty value.
fn put_no_fill<N: Sink>(
    printer: &mut Printer<'_, N>,
    layout: &Layout,
    item: u64,
    template: usize,
    path: &Path,
)
    requires { IsPathOf layout.now template path.now }
    ensures { Prints N.state printer.old printer.new (refused_line item (of_no_fill layout.now template path.now)) }
{
    put_refused_front(printer, item, "G02", None);
    printer.put(b"\"");
    put_path(printer, layout, template, path);
    put_refused_back(printer, b"");
}
