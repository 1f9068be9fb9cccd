//! The texts of paths.
ghost use Rattle.std.specs.Prelude.{◌≡◌, IfOk};
ghost use Rattle.sbe_base.specs.Writes.{Writes};
ghost use Rattle.printers.specs.Prints.{Prints};
ghost use Rattle.dump_lines.specs.Refused.{IsWay, way_text};

use crate::text_sink::TextSink;
use layout_tables::Layout;
use lists::NoMem;
use path_text::put_path;
use printers::{Chunk, Printer};
use sbe_base::{Sink, WriteFault};
use sbe_types::Path;
use std::alloc::Global;

/// The text of a path of a message; empty without a message. Requires a path of that message.
pub fn way_of(
    alloc: Global,
    layout: &Layout,
    template: Option<usize>,
    path: &Path,
) -> Result<TextSink, NoMem>
    requires { IsWay layout.now template path.now }
    ensures { IfOk result (λ text. text.bytes.items ≡ way_text layout.now template path.now) }
{
    let mut text = TextSink::new(alloc);
    match write_way(&mut text, layout, template, path) {
        Ok(()) => Ok(text),
        Err(WriteFault) => Err(NoMem),
    }
}

/// Writes the text of a path. Requires a path of that message.
fn write_way<O: Sink>(
    sink: &mut O,
    layout: &Layout,
    template: Option<usize>,
    path: &Path,
) -> Result<(), WriteFault>
    requires { IsWay layout.now template path.now }
    ensures { Writes (O.state sink.old) (O.state sink.new) (way_text layout.now template path.now) result }
{
    let mut chunk = Chunk::new();
    let mut printer = Printer::new(sink, &mut chunk);
    put_way(&mut printer, layout, template, path);
    printer.finish()
}

/// Prints the text of a path. Requires a path of that message.
fn put_way<O: Sink>(
    printer: &mut Printer<'_, O>,
    layout: &Layout,
    template: Option<usize>,
    path: &Path,
)
    requires { IsWay layout.now template path.now }
    ensures { Prints O.state printer.old printer.new (way_text layout.now template path.now) }
{
    match template {
        Some(template) => put_path(printer, layout, template, path),
        None => {}
    }
}
