ghost use Rattle.std.specs.Fmt.{signed_decimal};
ghost use Rattle.printers.specs.Prints.{Prints};
ghost use Rattle.refused_items.specs.Refused.{back_text, front_text, offset_text};

use json_values::{put_count, put_null, put_number};
use printers::Printer;
use sbe_base::Sink;

/// Prints a refused item's line up to the value of its path.
pub fn put_refused_front<O: Sink>(
    printer: &mut Printer<'_, O>,
    item: u64,
    code: &str,
    offset: Option<usize>,
)
    ensures { Prints O.state printer.old printer.new (front_text item code.now offset) }
{
    printer.put(b"{\"refused\":\"");
    printer.put(code.as_bytes());
    printer.put(b"\",\"item\":");
    put_count(printer, item);
    printer.put(b",\"offset\":");
    put_offset(printer, offset);
    printer.put(b",\"path\":");
}

/// Prints an offset in the body, or null.
fn put_offset<O: Sink>(printer: &mut Printer<'_, O>, offset: Option<usize>)
    ensures { Prints O.state printer.old printer.new (offset_text offset) }
{
    match offset {
        Some(at) => put_count(printer, at as u64),
        None => put_null(printer),
    }
}

/// Prints what follows a refused item's path.
pub fn put_refused_back<O: Sink>(printer: &mut Printer<'_, O>, detail: &[u8])
    ensures { Prints O.state printer.old printer.new (back_text detail.now) }
{
    printer.put(b"\",\"detail\":\"");
    printer.put(detail);
    printer.put(b"\"}\n");
}

/// Prints what follows a refused item's path, with a number.
pub fn put_refused_number<O: Sink>(printer: &mut Printer<'_, O>, detail: &i128)
    ensures { Prints O.state printer.old printer.new (back_text (signed_decimal detail.now)) }
{
    printer.put(b"\",\"detail\":\"");
    put_number(printer, detail);
    printer.put(b"\"}\n");
}
