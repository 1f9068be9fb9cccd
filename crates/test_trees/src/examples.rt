//! The uses of the library that its page shows.

use crate::bench::{layout_of, refused_text, with_bytes};
use anyhow::{Result, bail};
use field_lookup::{EntryField, EntryNames, find_field};
use layout_compile::compile;
use layout_names::LayoutNames;
use layout_tables::Layout;
use library_examples::{
    BodyErr, Order, OrderErr, SumErr, body_of_line, last_price, sum_entries, template_of,
    write_order,
};
use line_values::LineFault;
use schema_check::Checked;
use std::alloc::Global;
use test_tables::{Row, spelled};
use typed_writer::FrameBuf;

fn fault_text(alloc: Global, fault: &LineFault) -> Result<String> {
    match fault {
        LineFault::Memory => bail!("out of memory"),
        LineFault::Refused(code, _) => Ok(format!(in alloc; "{code}")?),
    }
}

fn body_text(alloc: Global, checked: &Checked, row: &Row) -> Result<String> {
    let layout = compile(alloc, checked)?;
    let mut buf = FrameBuf::new(alloc, row.size(1)?)?;
    match body_of_line(alloc, checked, &layout, row.text(2)?.as_bytes(), &mut buf) {
        Ok(n) => {
            let digits = hex::encode(alloc, buf.bytes())?;
            Ok(format!(in alloc; "{n} {}", digits.as_str())?)
        }
        Err(BodyErr::Line(fault)) => fault_text(alloc, &fault),
        Err(BodyErr::Misfit(e)) => refused_text(alloc, &e),
    }
}

/// A row: the schema, the limit, and a line. Answers its template and its body.
pub fn body_answer(alloc: Global, checked: &Checked, row: &Row) -> Result<String> {
    let body = body_text(alloc, checked, row)?;
    match template_of(alloc, checked, row.text(2)?.as_bytes()) {
        Ok(name) => {
            let name = spelled(alloc, name)?;
            Ok(format!(in alloc; "{}: {}", name.as_str(), body.as_str())?)
        }
        Err(_) => Ok(format!(in alloc; "no template: {}", body.as_str())?),
    }
}

fn legs_of(alloc: Global, words: &str) -> Result<Vec<i128>> {
    let mut legs = Vec::new(alloc);
    for word in words.split(' ') {
        if !word.is_empty() {
            legs.push(word.parse::<i128>()?)?;
        }
    }
    Ok(legs)
}

fn written_answer(alloc: Global, answer: std::result::Result<usize, OrderErr>) -> Result<String> {
    match answer {
        Ok(n) => Ok(format!(in alloc; "{n} bytes")?),
        Err(OrderErr::Schema) => Ok(format!(in alloc; "no order")?),
        Err(OrderErr::Start(e)) => Ok(format!(in alloc; "start: {e}")?),
        Err(OrderErr::Field(e)) => Ok(format!(in alloc; "{:?} {}", e.cause, e.detail)?),
        Err(OrderErr::Unset(i)) => Ok(format!(in alloc; "unset {i}")?),
        Err(OrderErr::Part(e)) => Ok(format!(in alloc; "part: {e}")?),
        Err(OrderErr::Full(full)) => Ok(format!(in alloc; "leg: {full}")?),
    }
}

fn order_in(
    alloc: Global,
    layout: &Layout,
    order: &Order<'_>,
    buf: &mut FrameBuf,
) -> Result<String> {
    let answer = written_answer(alloc, write_order(layout, order, buf))?;
    with_bytes(alloc, answer.as_str(), buf.bytes())
}

/// A row: the schema, the limit, and an order: its number, its legs separated by spaces, and its note. Gives the
/// answer, and the bytes in the buffer afterwards.
pub fn order_text(alloc: Global, checked: &Checked, row: &Row) -> Result<String> {
    let number = row.number(2)?;
    let note = row.text(4)?;
    let legs = legs_of(alloc, row.text(3)?)?;
    let mut buf = FrameBuf::new(alloc, row.size(1)?)?;
    let layout = layout_of(alloc, checked)?;
    let order = Order {
        number,
        legs: legs.as_slice(),
        note: note.as_bytes(),
    };
    order_in(alloc, &layout, &order, &mut buf)
}

fn sum_text(
    alloc: Global,
    layout: &Layout,
    body: &[u8],
    group: usize,
    field: usize,
) -> Result<String> {
    match sum_entries(layout, body, group, field) {
        Ok(sum) => Ok(format!(in alloc; "{sum}")?),
        Err(SumErr::Refused(refusal)) => Ok(format!(in alloc; "refused at {}", refusal.offset)?),
        Err(SumErr::Over) => Ok(format!(in alloc; "over")?),
    }
}

/// A row: the schema, a body, the number of a group, and that of a field of its entries. Answers the sum of the field.
pub fn sum_answer(alloc: Global, checked: &Checked, row: &Row) -> Result<String> {
    let group = row.size(2)?;
    let field = row.size(3)?;
    let body = row.bytes(alloc, 1)?;
    let layout = layout_of(alloc, checked)?;
    sum_text(alloc, &layout, body.as_slice(), group, field)
}

/// The part of a level that has a name: a field, a group or data, and its number.
fn part_answer(alloc: Global, names: &LayoutNames, level: usize, name: &str) -> Result<String> {
    let name = name.as_bytes();
    if let Some(i) = names.field(level, name) {
        return Ok(format!(in alloc; "field {i}")?);
    }
    if let Some(i) = names.group(level, name) {
        return Ok(format!(in alloc; "group {i}")?);
    }
    match names.data(level, name) {
        Some(i) => Ok(format!(in alloc; "data {i}")?),
        None => Ok(format!(in alloc; "nothing")?),
    }
}

/// A row: the schema, a message's name, and a name. The number of the message, and the part of its root that has the name.
pub fn named_answer(alloc: Global, checked: &Checked, row: &Row) -> Result<String> {
    let layout = layout_of(alloc, checked)?;
    let names = LayoutNames::new(alloc, &layout)?;
    match names.template(row.text(1)?.as_bytes()) {
        Some(template) if template < layout.templates() => {
            let part = part_answer(alloc, &names, layout.root(template), row.text(2)?)?;
            Ok(format!(in alloc; "message {template}, {}", part.as_str())?)
        }
        _ => Ok(format!(in alloc; "no message")?),
    }
}

fn price_text(alloc: Global, layout: &Layout, price: EntryField, body: &[u8]) -> Result<String> {
    match last_price(layout, price, body) {
        Ok(Some(price)) => Ok(format!(in alloc; "{price}")?),
        Ok(None) => Ok(format!(in alloc; "none")?),
        Err(refusal) => Ok(format!(in alloc; "refused at {}", refusal.offset)?),
    }
}

/// A row: the schema, a body, and the names of a message, of one of its groups, and of a field of that one's entries. The last
/// price of that field.
pub fn price_answer(alloc: Global, checked: &Checked, row: &Row) -> Result<String> {
    let body = row.bytes(alloc, 1)?;
    let layout = layout_of(alloc, checked)?;
    let names = LayoutNames::new(alloc, &layout)?;
    let path = EntryNames {
        template: row.text(2)?.as_bytes(),
        group: row.text(3)?.as_bytes(),
        field: row.text(4)?.as_bytes(),
    };
    match find_field(&layout, &names, &path) {
        Some(price) => price_text(alloc, &layout, price, body.as_slice()),
        None => Ok(format!(in alloc; "no such field")?),
    }
}
