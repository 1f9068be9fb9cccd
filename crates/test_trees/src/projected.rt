//! What an older schema knows of a newer one's messages.

use crate::bench::{checked_of, layout_of};
use anyhow::{Result, bail};
use sbe_types::Msg;
use schema_check::Checked;
use std::alloc::Global;
use test_tables::Row;
use tree_codec::decode;
use version_project::{knows, plain, project};

/// The message that lies in a body, if there is one.
fn read(alloc: Global, checked: &Checked, body: &[u8]) -> Result<Option<Msg>> {
    let layout = layout_of(alloc, checked)?;
    Ok(decode(alloc, &layout, body).ok())
}

/// Whether the two are the same, and so is a copy of the first one.
fn both_same(alloc: Global, known: &Msg, seen: &Msg) -> Result<bool> {
    let copy = known.copy(alloc)?;
    Ok(known.same(seen) && copy.same(seen))
}

/// What the older schema reads of the body of a message that it knows.
fn seen_text(alloc: Global, old: &Checked, known: &Msg, body: &[u8]) -> Result<&'static str> {
    match read(alloc, old, body)? {
        Some(seen) if both_same(alloc, known, &seen)? => Ok("read as it is known"),
        Some(_) => Ok("read as another"),
        None => Ok("not read"),
    }
}

/// What the older schema knows of a message, and reads of its body.
fn known_text(
    alloc: Global,
    old: &Checked,
    new: &Checked,
    msg: &Msg,
    body: &[u8],
) -> Result<&'static str> {
    if !knows(old, new, msg) {
        return Ok("unknown");
    }
    let known = project(alloc, old, new, msg)?;
    seen_text(alloc, old, &known, body)
}

fn msg_text(alloc: Global, old: &Checked, new: &Checked, msg: &Msg, body: &[u8]) -> Result<String> {
    let known = known_text(alloc, old, new, msg, body)?;
    let plain = plain(old, new, msg);
    let template = msg.template;
    Ok(format!(in alloc; "message {template}, plain {plain}, {known}")?)
}

fn body_text(alloc: Global, old: &Checked, new: &Checked, body: &[u8]) -> Result<String> {
    match read(alloc, new, body)? {
        Some(msg) => msg_text(alloc, old, new, &msg, body),
        None => bail!("the newer schema reads no message"),
    }
}

/// A row: the newer schema, the older one, and a body, which the newer one reads.
pub fn project_answer(rt: &HostRuntime, new: &Checked, row: &Row) -> Result<String> {
    let body = row.bytes(rt.alloc(), 2)?;
    let old = checked_of(rt, row.text(1)?)?;
    body_text(rt.alloc(), &old, new, body.as_slice())
}
