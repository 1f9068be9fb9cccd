// Prints paths.
ghost use Rattle.std.specs.Prelude.{◌≡◌, ◌++◌, map, slice_get};
ghost use Rattle.sbe_types.specs.declared.schema.Level.{out-Level};
ghost use Rattle.layout_tables.specs.Paths.{bracketed};
ghost use Rattle.bridge_terms.specs.Parts.{TagLists};
ghost use Rattle.bridge_terms.specs.Plans.{Plan};
ghost use Rattle.message_walk.specs.Rows.{AreRows};
ghost use Rattle.message_walk.specs.Ways.{way_of};
ghost use Rattle.printers.specs.Prints.{Prints};
ghost use Rattle.way_texts.specs.WayTexts.{data_name, entry_text, field_name, first_text, inside_text, part_text, way_text};

use crate::find::{after_first, first, first_entry, first_part, own_rows, rest_from, rows_from};
use itoa::Buffer;
use message_walk::{Part, PlanRow, PutValue, WayStep};
use printers::Printer;
use sbe_base::Sink;
use sbe_types::Level;

/// Prints the text of the path to a place of a message, such as `legs[2].subs[0].price`: the names of its parts, by the
/// rows of the message's plan and the root of its template. Allocates nothing.
pub fn put_way<O: Sink, R: PutValue>(
    printer: &mut Printer<'_, O>,
    rows: &[PlanRow<R>],
    root: &Level,
    way: &[WayStep],
)
    ensures same_reference { printer.new.sink.ghost_name ≡ printer.old.sink.ghost_name }
    ensures text { (lists : TagLists) (p : Plan) → AreRows R.spells lists p rows.now
        → Prints O.state printer.old printer.new (way_text p root.now (map way_of way.now)) }
{
    if let Some(tag) = first_part(way) {
        put_part(printer, rows_from(rows, tag), root, after_first(way));
    }
}

/// Prints the path from the part of the first row on.
#[cycle(way)]
fn put_part<O: Sink, R: PutValue>(
    printer: &mut Printer<'_, O>,
    rows: &[PlanRow<R>],
    level: &Level,
    way: &[WayStep],
)
    ensures same_reference { printer.new.sink.ghost_name ≡ printer.old.sink.ghost_name }
    ensures text { (lists : TagLists) (p : Plan) → AreRows R.spells lists p rows.now
        → Prints O.state printer.old printer.new (first_text p level.now (map way_of way.now)) }
{
    if rows.is_empty() {
        return;
    }
    let row = first(rows);
    let rest = rest_from(rows, 1);
    match &row.part {
        Part::Field(_) => put_field_name(printer, level, row.number),
        Part::Data(_) => put_data_name(printer, level, row.number),
        Part::Group(size) => match level.groups.as_slice().get(row.number) {
            Some(group) => put_group(printer, own_rows(rest, *size), &group.level, way),
            None => {}
        },
    }
}

/// Prints the path from a group on, by the rows of its entries.
#[cycle(way)]
fn put_group<O: Sink, R: PutValue>(
    printer: &mut Printer<'_, O>,
    rows: &[PlanRow<R>],
    level: &Level,
    way: &[WayStep],
)
    ensures same_reference { printer.new.sink.ghost_name ≡ printer.old.sink.ghost_name }
    ensures text { (lists : TagLists) (p : Plan) → AreRows R.spells lists p rows.now
        → Prints O.state printer.old printer.new ((out-Level level.now).name
        ++ entry_text (λ more. inside_text (λ t w. part_text p level.now t w) more) (map way_of way.now)) }
{
    printer.put(level.name.as_slice());
    if let Some(i) = first_entry(way) {
        put_index(printer, i);
        put_inside(printer, rows, level, after_first(way));
    }
}

/// Prints the path inside an entry.
#[cycle(way)]
fn put_inside<O: Sink, R: PutValue>(
    printer: &mut Printer<'_, O>,
    rows: &[PlanRow<R>],
    level: &Level,
    way: &[WayStep],
)
    ensures same_reference { printer.new.sink.ghost_name ≡ printer.old.sink.ghost_name }
    ensures text { (lists : TagLists) (p : Plan) → AreRows R.spells lists p rows.now
        → Prints O.state printer.old printer.new (inside_text (λ t w. part_text p level.now t w) (map way_of way.now)) }
{
    if let Some(tag) = first_part(way) {
        printer.put(b".");
        put_part(printer, rows_from(rows, tag), level, after_first(way));
    }
}

/// Prints the name of a field, if there is one.
fn put_field_name<O: Sink>(printer: &mut Printer<'_, O>, level: &Level, i: usize)
    ensures { Prints O.state printer.old printer.new (field_name (slice_get (out-Level level.now).fields i)) }
{
    match level.fields.as_slice().get(i) {
        Some(field) => printer.put(field.name.as_slice()),
        None => {}
    }
}

/// Prints the name of a data part, if there is one.
fn put_data_name<O: Sink>(printer: &mut Printer<'_, O>, level: &Level, i: usize)
    ensures { Prints O.state printer.old printer.new (data_name (slice_get (out-Level level.now).parts i)) }
{
    match level.parts.as_slice().get(i) {
        Some(part) => printer.put(part.name.as_slice()),
        None => {}
    }
}

/// Prints a number in brackets.
fn put_index<O: Sink>(printer: &mut Printer<'_, O>, i: usize)
    ensures { Prints O.state printer.old printer.new (bracketed i) }
{
    let mut buffer = Buffer::new();
    printer.put(b"[");
    printer.put(buffer.format(i).as_bytes());
    printer.put(b"]");
}
