//! Parts that are written at an offset, and entries that are skipped.

use crate::bench::{layout_of, with_bytes};
use anyhow::{Result, bail};
use json_rows::Codes;
use layout_tables::Layout;
use level_skip::skip_level;
use schema_check::Checked;
use std::alloc::Global;
use test_tables::{Row, spelled};
use tree_json::LineLayout;
use var_data::put_data;

fn put_text(
    alloc: Global,
    layout: &Layout,
    part: usize,
    bytes: &[u8],
    at: usize,
) -> Result<String> {
    let mut out = [170; 6];
    let _schema = layout.schema();
    if part >= layout.data_parts() || at > out.len() {
        bail!("there is no such part or place");
    }
    let answer = match put_data(layout, part, bytes, &mut out, at) {
        Ok(after) => format!(in alloc; "{after}")?,
        Err(e) => format!(in alloc; "{e}")?,
    };
    with_bytes(alloc, answer.as_str(), &out)
}

/// A row: the schema, the number of a data part, an offset, and data, which are written there over six bytes. Answers
/// the offset after them, or why there is none, and the bytes afterwards.
pub fn put_answer(alloc: Global, checked: &Checked, row: &Row) -> Result<String> {
    let part = row.size(1)?;
    let at = row.size(2)?;
    let bytes = row.text(3)?.as_bytes();
    let layout = layout_of(alloc, checked)?;
    put_text(alloc, &layout, part, bytes, at)
}

fn skip_text(
    alloc: Global,
    layout: &Layout,
    level: usize,
    version: u32,
    bytes: &[u8],
    at: usize,
    block: u32,
) -> Result<String> {
    if level >= layout.levels() || at > bytes.len() {
        bail!("there is no such level or place");
    }
    match skip_level(layout, level, version, bytes, at, block) {
        Some(next) => Ok(format!(in alloc; "{next}")?),
        None => Ok(format!(in alloc; "none")?),
    }
}

/// A row: the schema, a level, a version, the length of a block, its offset, and bytes. Answers the offset after the
/// entry.
pub fn skip_answer(alloc: Global, checked: &Checked, row: &Row) -> Result<String> {
    let level = row.size(1)?;
    let version = row.text(2)?.parse::<u32>()?;
    let block = row.text(3)?.parse::<u32>()?;
    let at = row.size(4)?;
    let bytes = row.bytes(alloc, 5)?;
    let layout = layout_of(alloc, checked)?;
    skip_text(alloc, &layout, level, version, bytes.as_slice(), at, block)
}

/// What is stored for a byte: a text of 16 bytes, or none.
fn slot_text(alloc: Global, codes: &Codes, byte: u8) -> Result<String> {
    let place = codes.index.get(byte as usize).copied().unwrap_or(0);
    let end = (place as usize).saturating_mul(16);
    match codes.texts.as_slice().get(end.saturating_sub(16)..end) {
        Some(slot) if place > 0 => {
            let slot = spelled(alloc, slot)?;
            Ok(format!(in alloc; "{}; ", slot.as_str())?)
        }
        _ => Ok(format!(in alloc; "none; ")?),
    }
}

fn slots_text(alloc: Global, codes: &Codes, bytes: &str) -> Result<String> {
    let mut text = String::new(alloc);
    for byte in bytes.split(' ') {
        text.push_str(slot_text(alloc, codes, byte.parse::<u8>()?)?.as_str())?;
    }
    Ok(text)
}

fn kept_text(alloc: Global, lines: &LineLayout, value: usize, bytes: &str) -> Result<String> {
    if lines.layout().templates() == 0 {
        bail!("there is no message");
    }
    match lines.message(0).fields.rows.get(value) {
        Some(found) => slots_text(alloc, &found.codes, bytes),
        None => bail!("there is no such value"),
    }
}

/// A row: the schema, a value of the first message's block, and bytes. Answers what is stored to print each byte.
pub fn kept_answer(alloc: Global, checked: &Checked, row: &Row) -> Result<String> {
    let value = row.size(1)?;
    let bytes = row.text(2)?;
    let lines = LineLayout::new(alloc, layout_of(alloc, checked)?)?;
    kept_text(alloc, &lines, value, bytes)
}
