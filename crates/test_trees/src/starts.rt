//! Messages that are begun, and the states that follow.

use crate::bench::{layout_of, with_bytes};
use crate::states::{begin_entry, end_first, unset_first, write_first};
use anyhow::{Result, bail};
use layout_tables::Layout;
use schema_check::Checked;
use std::alloc::Global;
use test_tables::Row;
use typed_writer::{FrameBuf, start};

fn begin_text(
    alloc: Global,
    layout: &Layout,
    buffer: &mut FrameBuf,
    template: usize,
) -> Result<String> {
    match start(buffer, layout, template) {
        Ok(_) => Ok(format!(in alloc; "begun")?),
        Err(e) => Ok(format!(in alloc; "{e}")?),
    }
}

fn begin_in(
    alloc: Global,
    layout: &Layout,
    buffer: &mut FrameBuf,
    template: usize,
) -> Result<String> {
    let answer = begin_text(alloc, layout, buffer, template)?;
    with_bytes(alloc, answer.as_str(), buffer.bytes())
}

/// A row: the schema, the limit, and the number of a message, which is begun. Gives the answer, and the bytes in the
/// buffer afterwards.
pub fn start_answer(alloc: Global, checked: &Checked, row: &Row) -> Result<String> {
    let template = row.size(2)?;
    let mut buffer = FrameBuf::new(alloc, row.size(1)?)?;
    let layout = layout_of(alloc, checked)?;
    begin_in(alloc, &layout, &mut buffer, template)
}

fn way_text(alloc: Global, layout: &Layout, buffer: &mut FrameBuf, way: &str) -> Result<String> {
    match way {
        "write first" => Ok(format!(in alloc; "{:?}", write_first(layout, buffer))?),
        "unset first" => Ok(format!(in alloc; "{:?}", unset_first(layout, buffer))?),
        "end first" => Ok(format!(in alloc; "{:?}", end_first(layout, buffer))?),
        "begin entry" => Ok(format!(in alloc; "{:?}", begin_entry(layout, buffer))?),
        _ => bail!("there is no such way"),
    }
}

fn way_in(alloc: Global, layout: &Layout, buffer: &mut FrameBuf, way: &str) -> Result<String> {
    let answer = way_text(alloc, layout, buffer, way)?;
    with_bytes(alloc, answer.as_str(), buffer.bytes())
}

/// A row: the schema, the limit, and the path through the states of its messages. Gives their answers, and the bytes in
/// the buffer afterwards.
pub fn states_answer(alloc: Global, checked: &Checked, row: &Row) -> Result<String> {
    let way = row.text(2)?;
    let mut buffer = FrameBuf::new(alloc, row.size(1)?)?;
    let layout = layout_of(alloc, checked)?;
    way_in(alloc, &layout, &mut buffer, way)
}
