//! Messages of lines and of bodies, written to a buffer of a given size.

use crate::bench::{layout_of, written_text};
use anyhow::{Result, bail};
use layout_tables::Layout;
use line_reading::msg_of_line;
use sbe_types::Msg;
use schema_check::Checked;
use std::alloc::Global;
use std::fs;
use test_tables::Row;
use tree_codec::{decode, encode};
use typed_writer::FrameBuf;

fn message_of(alloc: Global, checked: &Checked, line: &str) -> Result<Msg> {
    match msg_of_line(alloc, checked, line.as_bytes()) {
        Ok(msg) => Ok(msg),
        Err(_) => bail!("the line holds no message"),
    }
}

/// The answer for a message written to a buffer, whose limit doesn't change.
fn msg_answer(alloc: Global, layout: &Layout, msg: &Msg, buf: &mut FrameBuf) -> Result<String> {
    let limit = buf.limit();
    let answer = encode(layout, msg, buf);
    if buf.limit() != limit {
        bail!("the limit is another");
    }
    written_text(alloc, answer, buf)
}

/// The answer for a message written to a buffer of `limit` bytes.
pub fn msg_in(alloc: Global, checked: &Checked, limit: usize, msg: &Msg) -> Result<String> {
    let mut buf = FrameBuf::new(alloc, limit)?;
    let layout = layout_of(alloc, checked)?;
    msg_answer(alloc, &layout, msg, &mut buf)
}

fn text_answer(alloc: Global, checked: &Checked, limit: usize, line: &str) -> Result<String> {
    let msg = message_of(alloc, checked, line)?;
    msg_in(alloc, checked, limit, &msg)
}

/// A row: the schema, the limit, and the line.
pub fn line_answer(alloc: Global, checked: &Checked, row: &Row) -> Result<String> {
    text_answer(alloc, checked, row.size(1)?, row.text(2)?)
}

/// The text in which the pairs from this index on are replaced: the first text of a pair by the second.
fn replaced(alloc: Global, text: String, row: &Row, first: usize) -> Result<String> {
    let mut text = text;
    for i in first..row.len() {
        if (i - first) % 2 == 0 {
            let old = row.text(i)?;
            if !text.as_str().contains(old) {
                bail!("there is no such text to be replaced: {old}");
            }
            text = text
                .as_str()
                .replace(alloc, old, row.text(i.saturating_add(1))?)?;
        }
    }
    Ok(text)
}

/// A row: the schema, the limit, a file in `lines`, and pairs of texts. The first text of a pair is replaced by the
/// second.
pub fn changed_answer(rt: &HostRuntime, checked: &Checked, row: &Row) -> Result<String> {
    let name = row.text(2)?;
    let path = format!(in rt.alloc(); "lines/{name}.json")?;
    let text = fs::read_to_string(rt, path.as_str())?;
    let line = replaced(rt.alloc(), text, row, 3)?;
    text_answer(rt.alloc(), checked, row.size(1)?, line.as_str())
}

fn message_in(alloc: Global, checked: &Checked, body: &[u8]) -> Result<Msg> {
    let layout = layout_of(alloc, checked)?;
    match decode(alloc, &layout, body) {
        Ok(msg) => Ok(msg),
        Err(_) => bail!("the body has no message"),
    }
}

/// A row: the schema, the limit, and a body, whose message is written again.
pub fn again_answer(alloc: Global, checked: &Checked, row: &Row) -> Result<String> {
    let limit = row.size(1)?;
    let body = row.bytes(alloc, 2)?;
    let msg = message_in(alloc, checked, body.as_slice())?;
    msg_in(alloc, checked, limit, &msg)
}

fn turn_text(
    alloc: Global,
    checked: &Checked,
    layout: &Layout,
    buf: &mut FrameBuf,
    line: &str,
) -> Result<String> {
    let msg = message_of(alloc, checked, line)?;
    msg_answer(alloc, layout, &msg, buf)
}

fn turns_in(
    alloc: Global,
    checked: &Checked,
    layout: &Layout,
    buf: &mut FrameBuf,
    row: &Row,
) -> Result<String> {
    let mut text = String::new(alloc);
    for i in 2..row.len() {
        text.push_str(turn_text(alloc, checked, layout, buf, row.text(i)?)?.as_str())?;
        text.push_str("; ")?;
    }
    Ok(text)
}

/// A row: the schema, the limit, and lines, whose messages are written to one buffer in turn.
pub fn turns_answer(alloc: Global, checked: &Checked, row: &Row) -> Result<String> {
    let mut buf = FrameBuf::new(alloc, row.size(1)?)?;
    let layout = layout_of(alloc, checked)?;
    turns_in(alloc, checked, &layout, &mut buf, row)
}
