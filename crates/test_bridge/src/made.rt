//! Mapping files that are made for a row.

use anyhow::{Result, bail};
use std::alloc::Global;
use test_tables::Row;

/// A text in which the row's first old text, which occurs once, is replaced by its new one.
pub fn changed(alloc: Global, text: &str, row: &Row) -> Result<String> {
    let old = row.text(0)?;
    let Some((front, back)) = text.split_once(old) else {
        bail!("the old text isn't there");
    };
    if back.contains(old) {
        bail!("the old text is there more than once");
    }
    let mut made = String::from_str(alloc, front)?;
    made.push_str(row.text(1)?)?;
    made.push_str(back)?;
    Ok(made)
}

/// A message with `many` fields.
pub fn of_fields(alloc: Global, many: usize) -> Result<String> {
    let mut text = String::from_str(
        alloc,
        "{\"repository\":{\"content\":[{\"fields\":{\"content\":[",
    )?;
    for i in 0..many {
        text.push_str(comma(i))?;
        let field = format!(in alloc;
            "{{\"field\":{{\"id\":{},\"name\":\"\",\"type\":\"int\"}}}}",
            i.saturating_add(1)
        )?;
        text.push_str(field.as_str())?;
    }
    text.push_str(
        "]}},{\"messages\":{\"content\":[{\"message\":{\"name\":\"m\",\"msgType\":\"m\",\"content\":[{\"structure\":{\"content\":[",
    )?;
    for i in 0..many {
        text.push_str(comma(i))?;
        let reference = format!(in alloc; "{{\"fieldRef\":{{\"id\":{}}}}}", i.saturating_add(1))?;
        text.push_str(reference.as_str())?;
    }
    text.push_str("]}}]}}]}}]}}")?;
    Ok(text)
}

/// Components each of which refers twice to the previous one, and a message that refers to the last one. The first component has
/// a field, or refers to the last one, so that a chain of references comes back.
pub fn of_doubled(alloc: Global, many: usize, comes_back: bool) -> Result<String> {
    let mut text = String::from_str(
        alloc,
        "{\"repository\":{\"content\":[{\"fields\":{\"content\":[{\"field\":{\"id\":1,\"name\":\"\",\"type\":\"int\"}}]}},{\"components\":{\"content\":[{\"component\":{\"id\":1,\"name\":\"\",\"content\":[",
    )?;
    text.push_str(first_reference(alloc, many, comes_back)?.as_str())?;
    text.push_str("]}}")?;
    for i in 0..many {
        let below = i.saturating_add(1);
        let component = format!(in alloc;
            ",{{\"component\":{{\"id\":{},\"name\":\"\",\"content\":[{{\"componentRef\":{{\"id\":{below}}}}},{{\"componentRef\":{{\"id\":{below}}}}}]}}}}",
            below.saturating_add(1)
        )?;
        text.push_str(component.as_str())?;
    }
    let message = format!(in alloc;
        "]}}}},{{\"messages\":{{\"content\":[{{\"message\":{{\"name\":\"m\",\"msgType\":\"m\",\"content\":[{{\"structure\":{{\"content\":[{{\"componentRef\":{{\"id\":{}}}}}]}}}}]}}}}]}}}}]}}}}",
        many.saturating_add(1)
    )?;
    text.push_str(message.as_str())?;
    Ok(text)
}

/// What the first component refers to: a field, or the last component.
fn first_reference(alloc: Global, many: usize, comes_back: bool) -> Result<String> {
    if comes_back {
        let last = many.saturating_add(1);
        return Ok(format!(in alloc; "{{\"componentRef\":{{\"id\":{last}}}}}")?);
    }
    Ok(String::from_str(alloc, "{\"fieldRef\":{\"id\":1}}")?)
}

/// What precedes an item of a list.
fn comma(i: usize) -> &'static str {
    if i == 0 {
        return "";
    }
    ","
}
