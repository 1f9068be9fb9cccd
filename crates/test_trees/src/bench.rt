//! Schemas of files, and answers about messages that are written.

use anyhow::{Result, bail};
use layout_compile::compile;
use layout_tables::Layout;
use sbe_schema::read_schema;
use sbe_types::Path;
use schema_check::{Checked, check};
use std::alloc::Global;
use std::fs;
use tree_codec::EncodeErr;
use typed_writer::FrameBuf;

/// The schema of a file in `schemas`.
pub fn checked_of(rt: &HostRuntime, name: &str) -> Result<Checked> {
    let path = format!(in rt.alloc(); "schemas/{name}.json")?;
    let text = fs::read_to_string(rt, path.as_str())?;
    let schema = read_schema(rt.alloc(), text.as_bytes())?;
    match check(rt.alloc(), schema) {
        Ok(checked) => Ok(checked),
        Err(_) => bail!("the schema is refused"),
    }
}

/// The layout of a schema.
pub fn layout_of(alloc: Global, checked: &Checked) -> Result<Layout> {
    Ok(compile(alloc, checked)?)
}

/// The steps of a path, each preceded by a space.
pub fn path_text(alloc: Global, path: &Path) -> Result<String> {
    let mut text = String::new(alloc);
    for i in 0..path.len() {
        text.push_str(format!(in alloc; " {:?}", path.step(i))?.as_str())?;
    }
    Ok(text)
}

/// Why a message isn't written.
pub fn refused_text(alloc: Global, e: &EncodeErr) -> Result<String> {
    let path = path_text(alloc, &e.path)?;
    Ok(format!(in alloc; "{:?} {}{}", e.code, e.detail, path.as_str())?)
}

/// The length of a body, and its bytes; or why there is none, which leaves the buffer empty.
pub fn written_text(
    alloc: Global,
    answer: std::result::Result<usize, EncodeErr>,
    buf: &FrameBuf,
) -> Result<String> {
    match answer {
        Ok(n) => bytes_text(alloc, n, buf.bytes()),
        Err(e) if buf.bytes().is_empty() => refused_text(alloc, &e),
        Err(_) => bail!("a refusal leaves bytes"),
    }
}

fn bytes_text(alloc: Global, n: usize, bytes: &[u8]) -> Result<String> {
    let digits = hex::encode(alloc, bytes)?;
    Ok(format!(in alloc; "{n} {}", digits.as_str())?)
}

/// An answer, and the bytes in the buffer afterwards.
pub fn with_bytes(alloc: Global, answer: &str, bytes: &[u8]) -> Result<String> {
    let digits = hex::encode(alloc, bytes)?;
    Ok(format!(in alloc; "{answer}: {}", digits.as_str())?)
}
