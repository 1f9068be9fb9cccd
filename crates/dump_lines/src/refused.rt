ghost use Rattle.printers.specs.Prints.{Prints};
ghost use Rattle.body_walk.specs.Refusals.{refused};
ghost use Rattle.refused_items.specs.Refused.{refused_line};
ghost use Rattle.dump_lines.specs.Refused.{IsWay, of_fault_in, way_text};

use crate::codes::fault_code;
use flyweight_view::{LastRefusal, Refusal};
use layout_tables::Layout;
use path_text::put_path;
use printers::Printer;
use refused_items::{put_refused_front, put_refused_number};
use sbe_base::Sink;

/// Prints the line of an item whose body isn't a message, by what was recorded of its refusal. Requires a path of the
/// message that the refusal names.
#[inline(never)]
pub fn put_fault<O: Sink>(
    printer: &mut Printer<'_, O>,
    layout: &Layout,
    item: u64,
    last: &LastRefusal,
)
    requires { IsWay layout.now last.now.template last.now.fault.path }
    ensures { Prints O.state printer.old printer.new (refused_line item (of_fault_in layout.now last.now.template last.now.fault)) }
{
    put_refusal(printer, layout, item, &last.refusal());
}

/// Prints the line of a refusal. Requires a path of the message that it names.
pub fn put_refusal<O: Sink>(
    printer: &mut Printer<'_, O>,
    layout: &Layout,
    item: u64,
    refusal: &Refusal,
)
    requires { IsWay layout.now refusal.now.template refusal.now.path }
    ensures { Prints O.state printer.old printer.new (refused_line item (of_fault_in layout.now refusal.now.template (refused refusal.now))) }
{
    put_refused_front(
        printer,
        item,
        fault_code(refusal.code),
        Some(refusal.offset),
    );
    printer.put(b"\"");
    put_way(printer, layout, refusal);
    put_refused_number(printer, &refusal.detail);
}

/// Prints the text of a refusal's path.
fn put_way<O: Sink>(printer: &mut Printer<'_, O>, layout: &Layout, refusal: &Refusal)
    requires { IsWay layout.now refusal.now.template refusal.now.path }
    ensures { Prints O.state printer.old printer.new (way_text layout.now refusal.now.template refusal.now.path) }
{
    match refusal.template {
        Some(template) => put_path(printer, layout, template, &refusal.path),
        None => {}
    }
}
