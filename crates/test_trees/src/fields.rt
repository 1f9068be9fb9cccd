//! Values that are set in a block in which nothing else is set.

use crate::bench::{layout_of, path_text, with_bytes};
use anyhow::{Result, bail};
use layout_tables::Layout;
use sbe_types::Value;
use schema_check::Checked;
use std::alloc::Global;
use test_tables::{Row, value_of};
use typed_writer::{FieldErr, FrameBuf, start};

/// Begins the first message and sets one field. `None` if the schema has no such field.
fn set_alone(
    layout: &Layout,
    buffer: &mut FrameBuf,
    field: usize,
    value: &Value,
) -> Option<std::result::Result<(), FieldErr>> {
    if layout.templates() == 0 {
        return None;
    }
    let level = layout.root(0);
    if level >= layout.levels() || field >= layout.counts(level).0 {
        return None;
    }
    let Ok(mut state) = start(buffer, layout, 0) else {
        return None;
    };
    Some(state.set(field, value))
}

fn refusal_text(alloc: Global, e: &FieldErr) -> Result<String> {
    let path = path_text(alloc, &e.path)?;
    Ok(format!(in alloc; "{:?} {}{}", e.cause, e.detail, path.as_str())?)
}

fn answer_text(alloc: Global, answer: Option<std::result::Result<(), FieldErr>>) -> Result<String> {
    match answer {
        Some(Ok(())) => Ok(format!(in alloc; "set")?),
        Some(Err(e)) => refusal_text(alloc, &e),
        None => bail!("there is no such field"),
    }
}

fn set_in(
    alloc: Global,
    layout: &Layout,
    buffer: &mut FrameBuf,
    field: usize,
    value: &Value,
) -> Result<String> {
    let answer = answer_text(alloc, set_alone(layout, buffer, field, value))?;
    with_bytes(alloc, answer.as_str(), buffer.bytes())
}

/// A row: the schema, the limit, a field of the first message, and a value. Answers whether it is set, and the body
/// afterwards.
pub fn set_answer(alloc: Global, checked: &Checked, row: &Row) -> Result<String> {
    let field = row.size(2)?;
    let value = value_of(alloc, row.text(3)?)?;
    let mut buffer = FrameBuf::new(alloc, row.size(1)?)?;
    let layout = layout_of(alloc, checked)?;
    set_in(alloc, &layout, &mut buffer, field, &value)
}
