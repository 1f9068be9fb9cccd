//! One row of a table.

use crate::content::text_of;
use anyhow::{Result, bail};
use serde_json::Value;
use std::alloc::Global;

/// A row: a call, what it is given, and the required answer.
#[derive(Drop)]
pub struct Row {
    name: String,
    call: String,
    given: Vec<String>,
    wanted: String,
}

impl Row {
    /// Reads a row, one JSON object with `call`, `given`, `wanted` and, if those don't name it, `name`.
    pub fn read(alloc: Global, line: &str) -> Result<Row> {
        let value = Value::from_str(alloc, line)?;
        let call = member(alloc, &value, "call")?;
        let given = given_of(alloc, &value)?;
        let name = match value.get("name") {
            Some(name) => text_of(alloc, name)?,
            None => name_of(alloc, call.as_str(), given.as_slice())?,
        };
        let wanted = member(alloc, &value, "wanted")?;
        Ok(Row {
            name,
            call,
            given,
            wanted,
        })
    }

    /// The name of the row in the output.
    pub fn name(&self) -> &str {
        self.name.as_str()
    }

    /// The name of the call.
    pub fn call(&self) -> &str {
        self.call.as_str()
    }

    /// The required answer.
    pub fn wanted(&self) -> &str {
        self.wanted.as_str()
    }

    /// How many things are given.
    pub fn len(&self) -> usize {
        self.given.len()
    }

    /// The text that is given at an index.
    pub fn text(&self, i: usize) -> Result<&str> {
        match self.given.get(i) {
            Some(text) => Ok(text.as_str()),
            None => bail!("too little is given"),
        }
    }

    /// The number that is given at an index.
    pub fn number(&self, i: usize) -> Result<i128> {
        Ok(self.text(i)?.parse::<i128>()?)
    }

    /// The offset, length or count that is given at an index.
    pub fn size(&self, i: usize) -> Result<usize> {
        Ok(self.text(i)?.parse::<usize>()?)
    }

    /// The bytes that are given at an index: those of the hex digits after `hex `, with any spaces between them, or
    /// those of the text.
    pub fn bytes(&self, alloc: Global, i: usize) -> Result<Vec<u8>> {
        let text = self.text(i)?;
        match text.strip_prefix("hex ") {
            Some(spelled) => {
                let spelled = spelled.replace(alloc, " ", "")?;
                Ok(hex::decode(alloc, spelled.as_str())?)
            }
            None => Ok(Vec::from_slice(alloc, text.as_bytes())?),
        }
    }
}

/// The text of a required member.
fn member(alloc: Global, value: &Value, name: &str) -> Result<String> {
    match value.get(name) {
        Some(found) => text_of(alloc, found),
        None => bail!("there is no {name}"),
    }
}

fn given_of(alloc: Global, value: &Value) -> Result<Vec<String>> {
    let Some(items) = value.get("given").and_then(Value::as_array) else {
        bail!("there is no array given");
    };
    let mut texts = Vec::new(alloc);
    for item in items {
        texts.push(text_of(alloc, item)?)?;
    }
    Ok(texts)
}

/// The call and what it is given, separated by spaces.
fn name_of(alloc: Global, call: &str, given: &[String]) -> Result<String> {
    let mut name = String::from_str(alloc, call)?;
    for text in given {
        name.push_str(" ")?;
        name.push_str(text.as_str())?;
    }
    Ok(name)
}
