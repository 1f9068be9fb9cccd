//! Values and bytes in the notation of rows.

use anyhow::{Result, bail};
use sbe_types::{Elem, List, Value};
use std::alloc::Global;

/// Bytes in the notation of rows: as text if each is a printable character, otherwise `hex ` and their digits.
pub fn spelled(alloc: Global, bytes: &[u8]) -> Result<String> {
    if bytes.iter().all(|byte| 32 <= *byte && *byte <= 126) {
        return Ok(String::from_utf8_lossy(alloc, bytes)?);
    }
    let digits = hex::encode(alloc, bytes)?;
    Ok(format!(in alloc; "hex {}", digits.as_str())?)
}

/// The value that a row denotes: `null`, `absent`, `constant`, `members` for a composite without any, or one of the
/// kinds `number`, `enum`, `set`, `text` with its digits in hex, `run` for elements, where `-` is null, `pair` for a
/// number and an enum, followed by its contents.
pub fn value_of(alloc: Global, text: &str) -> Result<Value> {
    match text.split_once(' ') {
        Some((kind, words)) => value_with(alloc, kind, words),
        None => bare_value(alloc, text),
    }
}

fn bare_value(alloc: Global, word: &str) -> Result<Value> {
    match word {
        "null" => Ok(Value::Null),
        "constant" => Ok(Value::Const),
        "absent" => Ok(Value::Absent),
        "members" => Ok(Value::Comp(List::new(alloc))),
        _ => bail!("no value: {word}"),
    }
}

fn value_with(alloc: Global, kind: &str, words: &str) -> Result<Value> {
    match kind {
        "number" => Ok(Value::Num(words.parse::<i128>()?)),
        "enum" => Ok(Value::Enum(words.parse::<i128>()?)),
        "set" => Ok(Value::Set(words.parse::<u64>()?)),
        "text" => text_of(alloc, words),
        "run" => elements(alloc, words),
        "pair" => pair(alloc, words),
        _ => bail!("no value: {kind}"),
    }
}

fn text_of(alloc: Global, digits: &str) -> Result<Value> {
    let bytes = hex::decode(alloc, digits)?;
    Ok(Value::Text(List::from_slice(alloc, bytes.as_slice())?))
}

fn element(word: &str) -> Result<Elem> {
    if word == "-" {
        return Ok(Elem::Null);
    }
    Ok(Elem::Num(word.parse::<i128>()?))
}

fn elements(alloc: Global, words: &str) -> Result<Value> {
    let mut list = List::new(alloc);
    for word in words.split(' ') {
        list.push(element(word)?)?;
    }
    Ok(Value::Nums(list))
}

fn pair(alloc: Global, words: &str) -> Result<Value> {
    let Some((number, side)) = words.split_once(' ') else {
        bail!("no pair: {words}");
    };
    let mut members = List::new(alloc);
    members.push(Value::Num(number.parse::<i128>()?))?;
    members.push(Value::Enum(side.parse::<i128>()?))?;
    Ok(Value::Comp(members))
}
