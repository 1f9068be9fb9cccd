// The fields of a block, printed by the rows of their table.
ghost use Rattle.std.specs.Prelude.{◌≡◌, ◌≤◌, ℕ, Bool, List, if◌then◌else◌, length, true};
ghost use Rattle.serde_json.specs.Data.{null};
ghost use Rattle.sbe_types.specs.declared.kind.Order.TheVariants.{Little};
ghost use Rattle.sbe_types.specs.Places.{width};
ghost use Rattle.schema_facts.specs.InOrder.{IsKindInOrder};
ghost use Rattle.json_values.specs.Values.{number_data};
ghost use Rattle.json_values.specs.Plain.{plain_text};
ghost use Rattle.json_fields.specs.Shown.{PrintsShown};
ghost use Rattle.printers.specs.Prints.{Prints};
ghost use Rattle.flat_rows.specs.BlockChecks.{bytes_there};
ghost use Rattle.flat_rows.specs.Quick.{is_none, is_word, KeepsNumber, KeepsText};
ghost use Rattle.flat_rows.specs.Tables.{IsRow};
ghost use Rattle.json_rows.specs.Codes.{AreCodes};
ghost use Rattle.json_rows.specs.Tables.{values_of, with_texts, IsTextTable, TextsFit};
ghost use Rattle.json_fields.specs.Printed.{MergedText};

use crate::kinds::{put_listed, put_shown, put_text_in};
use flat_rows::{FlatRow, Look, Quick, is_none, number_in};
use json_rows::{Codes, TextRow, TextRows, text_of_code};
use json_values::{put_null, put_small_number};
use printers::Printer;
use sbe_base::Sink;
use sbe_types::{Kind, Order, Prim, get_num};

/// Prints the values of a block by their table, each after the text before it, and then the text after the last one.
/// Numbers are little-endian.
pub fn put_rows<O: Sink>(printer: &mut Printer<'_, O>, table: &TextRows, block: &[u8])
    requires table { IsTextTable (values_of table.now) table.now }
    requires fits { TextsFit (length block.now) table.now.rows.items }
    ensures { (known : Bool) (text : List ℕ) → MergedText Little known (with_texts (values_of table.now) table.now) block.now text
        → Prints O.state printer.old printer.new text }
{
    for row in table.rows.as_slice() {
        let start = row.start as usize;
        printer.put_lead(table.bytes.as_slice(), start, row.end as usize - start);
        put_row(printer, row, block);
    }
    printer.put(&table.bytes[table.last as usize..]);
}

/// Prints the value of a row.
#[inline(always)]
fn put_row<O: Sink>(printer: &mut Printer<'_, O>, row: &TextRow, block: &[u8])
    requires row { IsRow row.now.value }
    requires codes { AreCodes row.now.codes row.now.value.kind }
    requires fits { row.now.value.end ≤ length block.now }
    ensures { PrintsShown Little row.now.value.kind (bytes_there row.now.value.kind row.now.value.place block.now) (Prints O.state printer.old printer.new) }
{
    let value = &row.value;
    match value.quick.look {
        Look::I8 => put_number(printer, value, Prim::I8, block),
        Look::I16 => put_number(printer, value, Prim::I16, block),
        Look::I32 => put_number(printer, value, Prim::I32, block),
        Look::I64 => put_number(printer, value, Prim::I64, block),
        Look::U8 => put_number(printer, value, Prim::U8, block),
        Look::U16 => put_number(printer, value, Prim::U16, block),
        Look::U32 => put_number(printer, value, Prim::U32, block),
        Look::Text => put_row_text(printer, value, bytes_of(value, block)),
        Look::Enum => put_row_name(printer, value, &row.codes, bytes_of(value, block)),
        Look::Other | Look::Set => put_by_kind(printer, &value.kind, bytes_of(value, block)),
    }
}

/// The bytes of a row.
#[inline(always)]
fn bytes_of<'b>(row: &FlatRow, block: &'b [u8]) -> &'b [u8]
    requires row { IsRow row.now }
    requires fits { row.now.end ≤ length block.now }
    ensures value { result.now ≡ bytes_there row.now.kind row.now.place block.now }
    ensures wide { length result.now ≡ width row.now.kind }
{
    &block[row.place as usize..row.end as usize]
}

/// Prints a number of this primitive, or null.
#[inline(always)]
fn put_number<O: Sink>(printer: &mut Printer<'_, O>, row: &FlatRow, prim: Prim, block: &[u8])
    requires row { IsRow row.now }
    requires fits { row.now.end ≤ length block.now }
    requires word { is_word prim ≡ true }
    requires number { KeepsNumber prim row.now.quick row.now.kind }
    ensures { PrintsShown Little row.now.kind (bytes_there row.now.kind row.now.place block.now) (Prints O.state printer.old printer.new) }
{
    let n = number_in(prim, bytes_of(row, block));
    put_word(printer, &row.quick, n);
}

/// Prints a text.
#[inline(always)]
fn put_row_text<O: Sink>(printer: &mut Printer<'_, O>, row: &FlatRow, bytes: &[u8])
    requires row { IsRow row.now }
    requires text { KeepsText row.now.quick row.now.kind }
    requires wide { length bytes.now ≡ width row.now.kind }
    ensures { PrintsShown Little row.now.kind bytes.now (Prints O.state printer.old printer.new) }
{
    match &row.kind {
        Kind::Leaf(leaf) => put_text_in(printer, leaf, bytes),
        Kind::Enum(_, _) | Kind::Set(_, _) | Kind::Comp(_) | Kind::Const(_) => {
            put_by_kind(printer, &row.kind, bytes);
        }
    }
}

/// Prints an enum's value.
#[inline(always)]
fn put_row_name<O: Sink>(printer: &mut Printer<'_, O>, row: &FlatRow, codes: &Codes, bytes: &[u8])
    requires row { IsRow row.now }
    requires codes { AreCodes codes.now row.now.kind }
    requires wide { length bytes.now ≡ width row.now.kind }
    ensures { PrintsShown Little row.now.kind bytes.now (Prints O.state printer.old printer.new) }
{
    if bytes.len() == 1 {
        if let Some((text, run)) = text_of_code(codes, bytes[0]) {
            printer.put_front(text, run, b"", b"");
            return;
        }
    }
    put_name(printer, &row.kind, bytes);
}

/// Prints an enum's value by its names.
#[inline(always)]
fn put_name<O: Sink>(printer: &mut Printer<'_, O>, kind: &Kind, bytes: &[u8])
    requires ready { IsKindInOrder kind.now }
    requires wide { length bytes.now ≡ width kind.now }
    ensures { PrintsShown Little kind.now bytes.now (Prints O.state printer.old printer.new) }
{
    match kind {
        Kind::Enum(leaf, names) => {
            let number = get_num(Order::Little, leaf.prim, bytes);
            put_listed(printer, leaf, names.as_slice(), &number);
        }
        Kind::Leaf(_) | Kind::Set(_, _) | Kind::Comp(_) | Kind::Const(_) => {
            put_by_kind(printer, kind, bytes);
        }
    }
}

/// Prints a value by its kind.
#[inline(never)]
fn put_by_kind<O: Sink>(printer: &mut Printer<'_, O>, kind: &Kind, bytes: &[u8])
    requires ready { IsKindInOrder kind.now }
    requires wide { length bytes.now ≡ width kind.now }
    ensures { PrintsShown Little kind.now bytes.now (Prints O.state printer.old printer.new) }
{
    put_shown(printer, Order::Little, kind, bytes);
}

/// Prints a number, or null.
#[inline(always)]
fn put_word<O: Sink>(printer: &mut Printer<'_, O>, quick: &Quick, n: i64)
    ensures { Prints O.state printer.old printer.new (plain_text (if is_none quick.now n then null else number_data n)) }
{
    if is_none(quick, n) {
        put_null(printer);
    } else {
        put_small_number(printer, n);
    }
}
