//! Trees that no line can express, and what is read from bodies.

use crate::bench::{layout_of, refused_text};
use crate::written::msg_in;
use anyhow::{Result, bail};
use layout_tables::Layout;
use lists::List;
use sbe_types::{Block, DataVal, GroupVal, Msg, Value};
use schema_check::Checked;
use std::alloc::Global;
use test_tables::{Row, value_of};
use tree_codec::{DecodeErr, body_size, decode};

fn no_parts(alloc: Global) -> Block {
    Block {
        fields: List::new(alloc),
        groups: List::new(alloc),
        parts: List::new(alloc),
    }
}

/// A group of one entry.
fn group_of(alloc: Global, entry: Block) -> Result<GroupVal> {
    let mut entries = List::new(alloc);
    entries.push(entry)?;
    Ok(GroupVal::Entries(entries))
}

/// The block with one more part.
fn with_part(alloc: Global, block: &mut Block, kind: &str, rest: &str) -> Result<()> {
    match kind {
        "value" => block.fields.push(value_of(alloc, rest)?)?,
        "data" => block
            .parts
            .push(DataVal::Bytes(List::from_slice(alloc, rest.as_bytes())?))?,
        "absent" if rest == "data" => block.parts.push(DataVal::Absent)?,
        "absent" => block.groups.push(GroupVal::Absent)?,
        "empty" => block.groups.push(GroupVal::Entries(List::new(alloc)))?,
        _ => bail!("no part: {kind}"),
    }
    Ok(())
}

/// Makes a block the only entry of a group of the preceding block.
fn close(alloc: Global, blocks: &mut Vec<Block>, entry: Block) -> Result<()> {
    let group = group_of(alloc, entry)?;
    match blocks.last_mut() {
        Some(before) => Ok(before.groups.push(group)?),
        None => bail!("there is no block before"),
    }
}

/// Adds a part to the block that was begun last.
fn add(alloc: Global, blocks: &mut Vec<Block>, word: &str) -> Result<()> {
    let (kind, rest) = word.split_once(' ').unwrap_or((word, ""));
    match blocks.last_mut() {
        Some(last) => with_part(alloc, last, kind, rest),
        None => bail!("there is no block"),
    }
}

/// One step: `block` begins a block, `group` makes the block that was begun last the only entry of a group of the
/// preceding one, and any other step adds a part to the last one.
fn step(alloc: Global, blocks: &mut Vec<Block>, word: &str) -> Result<()> {
    if word == "block" {
        return Ok(blocks.push(no_parts(alloc))?);
    }
    if word != "group" {
        return add(alloc, blocks, word);
    }
    match blocks.pop() {
        Some(last) => close(alloc, blocks, last),
        None => bail!("there is no block"),
    }
}

/// The block built by steps that are separated by `; `.
fn block_of(alloc: Global, steps: &str) -> Result<Block> {
    let mut blocks = Vec::new(alloc);
    for word in steps.split("; ") {
        step(alloc, &mut blocks, word)?;
    }
    match blocks.pop() {
        Some(block) if blocks.is_empty() => Ok(block),
        _ => bail!("the steps don't end in one block"),
    }
}

/// The tree that a row gives from this index on: the number of its message, its version, and the steps of its root.
fn tree_of(alloc: Global, row: &Row, i: usize) -> Result<Msg> {
    let template = row.size(i)?;
    let version = row.text(i.saturating_add(1))?.parse::<u32>()?;
    let block = block_of(alloc, row.text(i.saturating_add(2))?)?;
    Ok(Msg {
        template,
        version,
        block,
    })
}

fn same_text(alloc: Global, msg: &Msg, other: &Msg) -> Result<String> {
    let copy = msg.copy(alloc)?;
    let is_copied = msg.same(&copy) && copy.same(msg);
    let is_other = msg.same(other);
    Ok(format!(in alloc; "copy {is_copied}, other {is_other}")?)
}

/// A row: the schema, and two trees. Answers whether the first one equals its copy, and the other one.
pub fn same_answer(alloc: Global, row: &Row) -> Result<String> {
    let msg = tree_of(alloc, row, 1)?;
    let other = tree_of(alloc, row, 4)?;
    same_text(alloc, &msg, &other)
}

/// A row: the schema, the limit, and a tree, which is written.
pub fn tree_answer(alloc: Global, checked: &Checked, row: &Row) -> Result<String> {
    let limit = row.size(1)?;
    let msg = tree_of(alloc, row, 2)?;
    msg_in(alloc, checked, limit, &msg)
}

fn size_text(alloc: Global, checked: &Checked, limit: usize, msg: &Msg) -> Result<String> {
    let layout = layout_of(alloc, checked)?;
    match body_size(&layout, msg, limit) {
        Ok(n) => Ok(format!(in alloc; "{n} bytes")?),
        Err(e) => refused_text(alloc, &e),
    }
}

/// A row: the schema, the limit, and a tree. Answers its size.
pub fn size_answer(alloc: Global, checked: &Checked, row: &Row) -> Result<String> {
    let limit = row.size(1)?;
    let msg = tree_of(alloc, row, 2)?;
    size_text(alloc, checked, limit, &msg)
}

fn value_text(alloc: Global, value: &Value) -> Result<String> {
    match value {
        Value::Num(n) => Ok(format!(in alloc; "number {n} ")?),
        Value::Enum(n) => Ok(format!(in alloc; "enum {n} ")?),
        Value::Null
        | Value::Text(_)
        | Value::Nums(_)
        | Value::Set(_)
        | Value::Comp(_)
        | Value::Const
        | Value::Absent => Ok(format!(in alloc; "another ")?),
    }
}

fn part_text(alloc: Global, part: &DataVal) -> Result<String> {
    match part {
        DataVal::Absent => Ok(format!(in alloc; "absent ")?),
        DataVal::Bytes(bytes) => {
            let digits = hex::encode(alloc, bytes.as_slice())?;
            Ok(format!(in alloc; "data {} ", digits.as_str())?)
        }
    }
}

fn values_text(alloc: Global, values: &[Value]) -> Result<String> {
    let mut text = String::new(alloc);
    for value in values {
        text.push_str(value_text(alloc, value)?.as_str())?;
    }
    Ok(text)
}

fn parts_text(alloc: Global, parts: &[DataVal]) -> Result<String> {
    let mut text = String::new(alloc);
    for part in parts {
        text.push_str(part_text(alloc, part)?.as_str())?;
    }
    Ok(text)
}

/// The numbers, enums and data of a message's root.
fn msg_text(alloc: Global, msg: &Msg) -> Result<String> {
    let values = values_text(alloc, msg.block.fields.as_slice())?;
    let parts = parts_text(alloc, msg.block.parts.as_slice())?;
    let groups = msg.block.groups.len();
    Ok(format!(in alloc;
        "{} of version {}: {}{}{groups} groups",
        msg.template,
        msg.version,
        values.as_str(),
        parts.as_str()
    )?)
}

fn refusal_text(alloc: Global, e: DecodeErr) -> Result<String> {
    match e {
        DecodeErr::Refused(refusal) => Ok(format!(in alloc;
            "{:?} {} at {}, template {:?}",
            refusal.code, refusal.detail, refusal.offset, refusal.template
        )?),
        DecodeErr::Memory => bail!("out of memory"),
    }
}

fn decoded_text(alloc: Global, layout: &Layout, body: &[u8]) -> Result<String> {
    match decode(alloc, layout, body) {
        Ok(msg) => msg_text(alloc, &msg),
        Err(e) => refusal_text(alloc, e),
    }
}

/// A row: the schema, and a body. Answers the root of its message.
pub fn decoded_answer(alloc: Global, checked: &Checked, row: &Row) -> Result<String> {
    let body = row.bytes(alloc, 1)?;
    let layout = layout_of(alloc, checked)?;
    decoded_text(alloc, &layout, body.as_slice())
}
