//! Messages that are drawn, shown by the bodies that they are written as.

use crate::schemas::load_checked;
use anyhow::{Result, bail};
use layout_compile::compile;
use layout_tables::Layout;
use sbe_types::Msg;
use schema_check::Checked;
use std::alloc::Global;
use test_tables::Row;
use tree_codec::{EncodeErr, encode};
use typed_writer::FrameBuf;
use vectors::{alter, generate};

/// How many bytes a body may have.
const LIMIT: usize = 4096;

/// The schema of a file in `schemas`.
fn checked_of(rt: &HostRuntime, name: &str) -> Result<Checked> {
    let path = format!(in rt.alloc(); "schemas/{name}.json")?;
    load_checked(rt, path.as_str())
}

/// The number of a message's template and its canonical body, or why it has none.
fn body_text(alloc: Global, layout: &Layout, msg: &Msg) -> Result<String> {
    let mut buf = FrameBuf::new(alloc, LIMIT)?;
    written_text(alloc, layout, msg, &mut buf)
}

/// The same, where the body is written into a buffer.
fn written_text(alloc: Global, layout: &Layout, msg: &Msg, buf: &mut FrameBuf) -> Result<String> {
    let template = msg.template;
    match encode(layout, msg, buf) {
        Ok(_) => shown_text(alloc, template, buf.bytes()),
        Err(e) => refused_text(alloc, template, &e),
    }
}

fn shown_text(alloc: Global, template: usize, body: &[u8]) -> Result<String> {
    let digits = hex::encode(alloc, body)?;
    Ok(format!(in alloc; "{template} {}", digits.as_str())?)
}

fn refused_text(alloc: Global, template: usize, e: &EncodeErr) -> Result<String> {
    Ok(format!(in alloc; "{template} {:?} {}", e.code, e.detail)?)
}

/// The message of a schema for a seed and an index.
fn drawn(alloc: Global, checked: &Checked, seed: u64, index: u64) -> Result<Msg> {
    if checked.messages().is_empty() {
        bail!("the schema has no message");
    }
    Ok(generate(alloc, checked, seed, index)?)
}

/// A row: the schema, the seed and the index.
pub fn message_answer(rt: &HostRuntime, row: &Row) -> Result<String> {
    let checked = checked_of(rt, row.text(0)?)?;
    let layout = compile(rt.alloc(), &checked)?;
    drawn_text(rt.alloc(), &checked, &layout, row)
}

/// The same, given the schema and its layout.
fn drawn_text(alloc: Global, checked: &Checked, layout: &Layout, row: &Row) -> Result<String> {
    let seed = row.text(1)?.parse::<u64>()?;
    let index = row.text(2)?.parse::<u64>()?;
    let msg = drawn(alloc, checked, seed, index)?;
    body_text(alloc, layout, &msg)
}

/// A row: the body, and the index.
pub fn altered_answer(alloc: Global, row: &Row) -> Result<String> {
    let mut body = row.bytes(alloc, 0)?;
    let index = row.text(1)?.parse::<u64>()?;
    alter(body.as_mut_slice(), index);
    Ok(hex::encode(alloc, body.as_slice())?)
}
