//! Views of bodies, and lines in the form in which messages are printed.

use crate::bench::layout_of;
use anyhow::Result;
use flyweight_view::{MsgView, validate};
use layout_tables::Layout;
use line_draft::BodyDraft;
use line_reading::msg_of_line;
use printed_lines::{PrintedLines, body_of_line};
use schema_check::Checked;
use std::alloc::Global;
use test_tables::{Row, spelled};
use tree_codec::encode;
use tree_json::LineLayout;
use typed_writer::FrameBuf;

fn shown_text(alloc: Global, view: &MsgView<'_>, version: u32) -> Result<String> {
    let name = spelled(alloc, view.name())?;
    let counts = view.root().counts();
    let id = view.schema().id();
    Ok(format!(in alloc;
        "{} {} of version {}, {counts:?}, schema {id} of version {version}",
        view.template(),
        name.as_str(),
        view.version()
    )?)
}

fn view_text(alloc: Global, layout: &Layout, version: u32, body: &[u8]) -> Result<String> {
    match validate(layout, body) {
        Ok(view) => shown_text(alloc, &view, version),
        Err(refusal) => Ok(format!(in alloc; "refused, {:?}", refusal.template)?),
    }
}

/// A row: the schema, and a body. Answers what its view says of the message, or the template as far as a refusal names
/// it.
pub fn view_answer(alloc: Global, checked: &Checked, row: &Row) -> Result<String> {
    let body = row.bytes(alloc, 1)?;
    let layout = layout_of(alloc, checked)?;
    view_text(alloc, &layout, checked.version(), body.as_slice())
}

/// The body of a line in printed form.
fn printed_text(alloc: Global, printed: &PrintedLines, line: &str, limit: usize) -> Result<String> {
    let mut draft = BodyDraft::new();
    if body_of_line(printed, line.as_bytes(), limit, &mut draft) {
        return Ok(hex::encode(alloc, draft.bytes())?);
    }
    Ok(format!(in alloc; "no printed line")?)
}

/// The body of a line in any form.
fn general_text(
    alloc: Global,
    checked: &Checked,
    layout: &Layout,
    line: &str,
    limit: usize,
) -> Result<String> {
    let Ok(msg) = msg_of_line(alloc, checked, line.as_bytes()) else {
        return Ok(format!(in alloc; "none")?);
    };
    let mut buf = FrameBuf::new(alloc, limit)?;
    match encode(layout, &msg, &mut buf) {
        Ok(_) => Ok(hex::encode(alloc, buf.bytes())?),
        Err(_) => Ok(format!(in alloc; "none")?),
    }
}

fn both_text(
    alloc: Global,
    checked: &Checked,
    printed: &PrintedLines,
    line: &str,
    limit: usize,
) -> Result<String> {
    let short = printed_text(alloc, printed, line, limit)?;
    let general = general_text(alloc, checked, printed.lines().layout(), line, limit)?;
    if short.as_str() == general.as_str() {
        return Ok(format!(in alloc; "both {}", short.as_str())?);
    }
    Ok(format!(in alloc; "{}, {}", short.as_str(), general.as_str())?)
}

/// A row: the schema, the limit, and a line. Answers its body by both paths: `both` if they give the same.
pub fn printed_answer(alloc: Global, checked: &Checked, row: &Row) -> Result<String> {
    let limit = row.size(1)?;
    let line = row.text(2)?;
    let lines = LineLayout::new(alloc, layout_of(alloc, checked)?)?;
    let printed = PrintedLines::new(lines);
    both_text(alloc, checked, &printed, line, limit)
}
