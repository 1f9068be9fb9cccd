//! What a row gives to a call.

use anyhow::{Result, bail};
use serde_json::Value;
use std::alloc::Global;

/// The text of what is given: a text itself, `{"repeat": n, "of": text}` for a repeated one, an array for texts one
/// after another, and other JSON as its compact text.
pub(crate) fn text_of(alloc: Global, value: &Value) -> Result<String> {
    if let Some(text) = value.as_str() {
        return Ok(String::from_str(alloc, text)?);
    }
    if let Some(items) = value.as_array() {
        return concat_items(alloc, items.as_slice());
    }
    match value.get("repeat").and_then(Value::as_u64) {
        Some(many) => repeated(alloc, many, value),
        None => Ok(value.to_string(alloc)?),
    }
}

/// The text of one item of an array, or of what is repeated.
fn plain_text(alloc: Global, value: &Value) -> Result<String> {
    if let Some(text) = value.as_str() {
        return Ok(String::from_str(alloc, text)?);
    }
    match value.get("repeat").and_then(Value::as_u64) {
        Some(many) => repeated(alloc, many, value),
        None => Ok(value.to_string(alloc)?),
    }
}

fn concat_items(alloc: Global, items: &[Value]) -> Result<String> {
    let mut text = String::new(alloc);
    for item in items {
        text.push_str(plain_text(alloc, item)?.as_str())?;
    }
    Ok(text)
}

fn repeated(alloc: Global, many: u64, value: &Value) -> Result<String> {
    let Some(of) = value.get("of").and_then(Value::as_str) else {
        bail!("what is repeated is no text");
    };
    let mut text = String::new(alloc);
    for _ in 0..many {
        text.push_str(of)?;
    }
    Ok(text)
}
