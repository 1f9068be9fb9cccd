ghost use Rattle.std.specs.Prelude.{◌≡◌, ◌++◌, slice_get, Some, codes};
ghost use Rattle.printers.specs.Prints.{Prints};
ghost use Rattle.dump_lines.specs.Dumped.{before_message, behind_message, view_line};

use crate::schemas::Schemas;
use flyweight_view::MsgView;
use json_values::put_count;
use printers::Printer;
use sbe_base::Sink;
use tree_json::LineLayout;

/// Prints the line of a message of a schema.
pub fn put_message<O: Sink>(
    printer: &mut Printer<'_, O>,
    schemas: &Schemas,
    lines: &LineLayout,
    view: &MsgView<'_>,
)
    requires { slice_get lines.now.messages view.now.message.template ≡ Some view.now.level }
    ensures { Prints O.state printer.old printer.new (before_message schemas.now.also lines.now.id ++ (view_line view.now ++ behind_message schemas.now.also)) }
{
    put_before(printer, schemas, lines.id());
    lines.put_open_line(printer, view);
    put_behind(printer, schemas);
}

/// Prints what precedes a message.
fn put_before<O: Sink>(printer: &mut Printer<'_, O>, schemas: &Schemas, id: u32)
    ensures { Prints O.state printer.old printer.new (before_message schemas.now.also id) }
{
    if schemas.also.is_empty() {
        return;
    }
    printer.put(b"{\"schema\":");
    put_count(printer, id as u64);
    printer.put(b",\"message\":");
}

/// Prints the closing bracket of a message, and what follows it.
fn put_behind<O: Sink>(printer: &mut Printer<'_, O>, schemas: &Schemas)
    ensures { Prints O.state printer.old printer.new (codes "}" ++ behind_message schemas.now.also) }
{
    if schemas.also.is_empty() {
        printer.put(b"}\n");
    } else {
        printer.put(b"}}\n");
    }
}
