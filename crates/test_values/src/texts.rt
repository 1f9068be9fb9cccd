//! Values as JSON texts, and the chunk in which they are gathered.

use crate::leaves::{names_of, prim_of};
use anyhow::{Result, bail};
use json_values::{
    put_char, put_constant, put_count, put_enum, put_number, put_set, put_string, put_text,
};
use printers::{Chunk, Printer};
use sbe_base::MemSink;
use sbe_types::{Bytes, ConstValue, Named};
use std::alloc::Global;
use test_tables::{Row, spelled};

/// How many bytes the sink of a row accepts.
const ROOM: usize = 8192;

/// The answer to a row, or `None` if it names another call.
pub fn answer(alloc: Global, row: &Row) -> Result<Option<String>> {
    let text = match row.call() {
        "digits" => all_digits(alloc, row.text(0)?)?,
        "put_text"
        | "put_string"
        | "put_char"
        | "put_number"
        | "put_count"
        | "put_enum"
        | "put_set"
        | "put_constant" => one_put(alloc, row)?,
        "behind" => numbers_behind(alloc, row.text(0)?, row.text(1)?)?,
        "pieces" => pieces_put(alloc, row)?,
        "failing" => failing_put(alloc, row)?,
        _ => return Ok(None),
    };
    Ok(Some(text))
}

fn put(alloc: Global, row: &Row, printer: &mut Printer<'_, MemSink>) -> Result<()> {
    match row.call() {
        "put_text" => put_text(printer, row.bytes(alloc, 0)?.as_slice()),
        "put_string" => put_string(printer, row.bytes(alloc, 0)?.as_slice()),
        "put_char" => put_char(printer, &row.number(0)?),
        "put_number" => put_number(printer, &row.number(0)?),
        "put_count" => put_count(printer, row.text(0)?.parse::<u64>()?),
        "put_constant" => put_constant(printer, &constant_of(alloc, row)?),
        _ => put_listed(alloc, row, printer)?,
    }
    Ok(())
}

fn put_listed(alloc: Global, row: &Row, printer: &mut Printer<'_, MemSink>) -> Result<()> {
    let names = names_of(alloc, row.text(0)?)?;
    put_named(row, names.as_slice(), printer)
}

/// The same, given the names.
fn put_named(row: &Row, names: &[Named], printer: &mut Printer<'_, MemSink>) -> Result<()> {
    if row.call() == "put_enum" {
        put_enum(printer, names, &row.number(1)?);
    } else {
        put_set(printer, names, row.text(1)?.parse::<u64>()?);
    }
    Ok(())
}

/// A constant: its kind, and its value.
fn constant_of(alloc: Global, row: &Row) -> Result<ConstValue> {
    match row.text(0)? {
        "number" => Ok(ConstValue::Num(row.number(1)?)),
        "text" => {
            let bytes = row.bytes(alloc, 1)?;
            Ok(ConstValue::Text(Bytes::from_slice(alloc, bytes.as_slice())?))
        }
        "code" => {
            let name = Bytes::from_slice(alloc, row.text(2)?.as_bytes())?;
            let number = row.number(3)?;
            Ok(ConstValue::Code(prim_of(row.text(1)?)?, Named { name, number }))
        }
        _ => bail!("no constant"),
    }
}

fn one_put(alloc: Global, row: &Row) -> Result<String> {
    let mut out = MemSink::new(alloc, ROOM, &[])?;
    let mut chunk = Chunk::new();
    let mut printer = Printer::new(&mut out, &mut chunk);
    put(alloc, row, &mut printer)?;
    printer.finish()?;
    spelled(alloc, out.bytes())
}

/// A number printed after `many` bytes, of which the chunk gathers what it can.
fn digits_behind(alloc: Global, many: usize, number: &str) -> Result<String> {
    let before = vec![in alloc; b'x'; many]?;
    digits_after(alloc, before.as_slice(), number)
}

/// The same, given those bytes.
fn digits_after(alloc: Global, before: &[u8], number: &str) -> Result<String> {
    let mut out = MemSink::new(alloc, ROOM, &[])?;
    put_after(&mut out, before, number)?;
    match out.bytes().strip_prefix(before) {
        Some(digits) => spelled(alloc, digits),
        None => bail!("what was before is gone"),
    }
}

/// Prints these bytes, and then a number.
fn put_after(out: &mut MemSink, before: &[u8], number: &str) -> Result<()> {
    let mut chunk = Chunk::new();
    let mut printer = Printer::new(out, &mut chunk);
    printer.put(before);
    put_number(&mut printer, &number.parse::<i128>()?);
    printer.finish()?;
    Ok(())
}

/// Each of these numbers printed after that many bytes, each followed by a space.
fn numbers_behind(alloc: Global, many: &str, numbers: &str) -> Result<String> {
    let many = many.parse::<usize>()?;
    let mut text = String::new(alloc);
    for number in numbers.split(' ') {
        text.push_str(digits_behind(alloc, many, number)?.as_str())?;
        text.push_str(" ")?;
    }
    Ok(text)
}

/// The digits of a number, and those of it as a count, unless it is negative.
fn digits_of(alloc: Global, number: &str) -> Result<String> {
    let mut out = MemSink::new(alloc, ROOM, &[])?;
    let mut chunk = Chunk::new();
    let mut printer = Printer::new(&mut out, &mut chunk);
    put_number(&mut printer, &number.parse::<i128>()?);
    if let Ok(count) = number.parse::<u64>() {
        printer.put(b"=");
        put_count(&mut printer, count);
    }
    printer.finish()?;
    spelled(alloc, out.bytes())
}

/// The digits of each of these numbers, each followed by a space.
fn all_digits(alloc: Global, numbers: &str) -> Result<String> {
    let mut text = String::new(alloc);
    for number in numbers.split(' ') {
        text.push_str(digits_of(alloc, number)?.as_str())?;
        text.push_str(" ")?;
    }
    Ok(text)
}

/// Two pieces of these sizes with a bar between them.
fn pieces_put(alloc: Global, row: &Row) -> Result<String> {
    let first = piece_of(alloc, b'x', row.size(0)?)?;
    let second = piece_of(alloc, b'y', row.size(1)?)?;
    both_put(alloc, first.as_slice(), second.as_slice())
}

/// A piece of this size.
fn piece_of(alloc: Global, byte: u8, many: usize) -> Result<Vec<u8>> {
    Ok(vec![in alloc; byte; many]?)
}

/// The two pieces with a bar between them.
fn both_put(alloc: Global, first: &[u8], second: &[u8]) -> Result<String> {
    let mut out = MemSink::new(alloc, ROOM, &[])?;
    put_both(&mut out, first, second)?;
    if are_both(alloc, out.bytes(), first, second)? {
        return Ok(format!(in alloc; "whole")?);
    }
    bail!("the pieces differ")
}

/// Prints the two pieces with a bar between them.
fn put_both(out: &mut MemSink, first: &[u8], second: &[u8]) -> Result<()> {
    let mut chunk = Chunk::new();
    let mut printer = Printer::new(out, &mut chunk);
    printer.put(first);
    printer.put(b"|");
    printer.put(second);
    printer.finish()?;
    Ok(())
}

/// Whether these bytes are the two pieces with a bar between them.
fn are_both(alloc: Global, bytes: &[u8], first: &[u8], second: &[u8]) -> Result<bool> {
    let wanted = [first, b"|", second].concat(alloc)?;
    Ok(bytes == wanted.as_slice())
}

/// Whether `many` pieces of ten bytes were written.
fn tens_put(out: &mut MemSink, many: usize) -> bool {
    let mut chunk = Chunk::new();
    let mut printer = Printer::new(out, &mut chunk);
    for _ in 0..many {
        printer.put(b"0123456789");
    }
    printer.finish().is_ok()
}

/// Pieces of ten bytes printed to a sink of which one call fails: whether they were written, and whether the sink then
/// holds a proper prefix of what is written if no call fails.
fn failing_put(alloc: Global, row: &Row) -> Result<String> {
    let mut whole = MemSink::new(alloc, ROOM, &[])?;
    let mut out = MemSink::new(alloc, ROOM, &[row.text(1)?.parse::<u64>()?])?;
    let many = row.size(0)?;
    if !tens_put(&mut whole, many) {
        bail!("nothing may fail here");
    }
    let written = tens_put(&mut out, many);
    let front = whole.bytes().starts_with(out.bytes());
    let short = out.bytes().len() < whole.bytes().len();
    Ok(format!(in alloc; "written {written}, front {front}, short {short}")?)
}
