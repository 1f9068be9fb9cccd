//! Elements of files, their children and the values of their attributes.

use crate::refused::{done_text, number_text, refused_text};
use anyhow::{Result, bail};
use json_data::{Json, JsonSpace};
use json_elements::{
    Cause, ElementErr, Form, IdNumber, JsonText, TextOrNumber, WholeNumber, at_child, content_of,
    inside, limit_children, lone_of, read_limited, read_value, refuse, refuse_children, str_of,
};
use schema_lines::put_json_text;
use std::alloc::Global;
use test_tables::{Row, spelled};

/// The answer to a row, or `None` if it names another call.
pub fn answer(alloc: Global, row: &Row) -> Result<Option<String>> {
    let mut space = JsonSpace::new(alloc);
    let space = &mut space;
    let text = match row.call() {
        "lone_of" => lone_text(alloc, &value_in(space, row)?)?,
        "content_of" => children_text(alloc, &value_in(space, row)?)?,
        "limit_children" => limited_text(alloc, &value_in(space, row)?, row.size(1)?)?,
        "refuse_children" => none_text(alloc, &value_in(space, row)?)?,
        "WholeNumber" => number_text(alloc, WholeNumber::read(alloc, &value_in(space, row)?))?,
        "IdNumber" => id_text(alloc, IdNumber::read(alloc, &value_in(space, row)?))?,
        "read_limited" => {
            let most = row.text(1)?.parse::<u32>()?;
            id_text(alloc, read_limited(alloc, &value_in(space, row)?, most))?
        }
        "texts" => texts_read(alloc, &value_in(space, row)?)?,
        "read_value" => file_text(alloc, space, row.bytes(alloc, 0)?.as_slice())?,
        "places" => places_text(alloc)?,
        "put_json_text" => escaped_text(alloc, row.bytes(alloc, 0)?.as_slice())?,
        _ => return Ok(None),
    };
    Ok(Some(text))
}

/// The JSON value that a row gives as its first item.
pub fn value_in<'a>(space: &'a mut JsonSpace, row: &'a Row) -> Result<Json<'a>> {
    Ok(space.read(row.text(0)?.as_bytes())?)
}

/// A value that is an integer.
fn integer_text(alloc: Global, value: &Json<'_>) -> Result<String> {
    match value.as_i128() {
        Some(n) => Ok(format!(in alloc; "{n}")?),
        None => bail!("the value is no integer"),
    }
}

/// The name of an element, and its value.
fn lone_text(alloc: Global, value: &Json<'_>) -> Result<String> {
    match lone_of(value) {
        Some((name, inner)) => {
            let inner = integer_text(alloc, inner)?;
            Ok(format!(in alloc; "{name}: {}", inner.as_str())?)
        }
        None => Ok(format!(in alloc; "no element")?),
    }
}

/// How many children there are.
fn children_text(alloc: Global, value: &Json<'_>) -> Result<String> {
    match content_of(alloc, value) {
        Ok(children) => Ok(format!(in alloc; "{}", children.len())?),
        Err(e) => refused_text(alloc, e),
    }
}

fn limited_text(alloc: Global, value: &Json<'_>, most: usize) -> Result<String> {
    match content_of(alloc, value) {
        Ok(children) => done_text(alloc, limit_children(alloc, children, most)),
        Err(e) => refused_text(alloc, e),
    }
}

fn none_text(alloc: Global, value: &Json<'_>) -> Result<String> {
    match content_of(alloc, value) {
        Ok(children) => done_text(alloc, refuse_children(alloc, children)),
        Err(e) => refused_text(alloc, e),
    }
}

/// A number that was read, or the refusal.
pub fn id_text(alloc: Global, read: std::result::Result<u32, ElementErr>) -> Result<String> {
    match read {
        Ok(n) => Ok(format!(in alloc; "{n}")?),
        Err(e) => refused_text(alloc, e),
    }
}

fn str_text(alloc: Global, value: &Json<'_>) -> Result<String> {
    match str_of(alloc, value) {
        Ok(text) => spelled(alloc, text.as_bytes()),
        Err(e) => refused_text(alloc, e),
    }
}

fn json_text(alloc: Global, value: &Json<'_>) -> Result<String> {
    match JsonText::read(alloc, value) {
        Ok(text) => spelled(alloc, text.as_slice()),
        Err(e) => refused_text(alloc, e),
    }
}

fn either_text(alloc: Global, value: &Json<'_>) -> Result<String> {
    match TextOrNumber::read(alloc, value) {
        Ok(text) => spelled(alloc, text.as_slice()),
        Err(e) => refused_text(alloc, e),
    }
}

/// What a text is read as by `str_of`, `JsonText` and `TextOrNumber`.
fn texts_read(alloc: Global, value: &Json<'_>) -> Result<String> {
    let lent = str_text(alloc, value)?;
    let text = json_text(alloc, value)?;
    let either = either_text(alloc, value)?;
    Ok(format!(in alloc; "{}; {}; {}", lent.as_str(), text.as_str(), either.as_str())?)
}

/// The value of a file, which is an array of one integer.
fn file_text(alloc: Global, space: &mut JsonSpace, bytes: &[u8]) -> Result<String> {
    match read_value(alloc, space, bytes) {
        Ok(value) => match value.as_array() {
            Some([item]) => {
                let item = integer_text(alloc, item)?;
                Ok(format!(in alloc; "[{}]", item.as_str())?)
            }
            _ => bail!("the value is no array of one item"),
        },
        Err(e) => refused_text(alloc, e),
    }
}

/// A refusal inside a member, a child and a member, one without a place, and a number passed through the same calls.
fn places_text(alloc: Global) -> Result<String> {
    let deep = inside(
        "a",
        at_child(10, inside("b", refuse::<u32>(alloc, Cause::Shape))),
    );
    let deep = id_text(alloc, deep)?;
    let bare = id_text(alloc, refuse::<u32>(alloc, Cause::Xml))?;
    let through = id_text(alloc, inside("a", at_child(1, Ok(7))))?;
    Ok(format!(in alloc;
        "{}; {}; {}",
        deep.as_str(),
        bare.as_str(),
        through.as_str()
    )?)
}

/// A text as notes and the lines of `check` print it.
fn escaped_text(alloc: Global, text: &[u8]) -> Result<String> {
    let mut out = Vec::new(alloc);
    put_json_text(&mut out, text)?;
    spelled(alloc, out.as_slice())
}
