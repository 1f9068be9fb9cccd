//! Attributes that are required, are optional, or have a default.

use crate::elements::{id_text, value_in};
use crate::refused::refused_text;
use anyhow::{Result, bail};
use json_data::{Json, JsonSpace};
use json_elements::{IdNumber, needed, optional, with_default};
use std::alloc::Global;
use test_tables::Row;

/// The answer to a row, or `None` if it names another call.
pub fn answer(alloc: Global, row: &Row) -> Result<Option<String>> {
    if row.call() != "attribute" {
        return Ok(None);
    }
    let mut space = JsonSpace::new(alloc);
    let element = value_in(&mut space, row)?;
    Ok(Some(attribute_text(alloc, &element, name_of(row.text(1)?)?)?))
}

fn name_of(text: &str) -> Result<&'static str> {
    match text {
        "id" => Ok("id"),
        "offset" => Ok("offset"),
        "version" => Ok("version"),
        _ => bail!("no attribute: {text}"),
    }
}

fn optional_text(alloc: Global, element: &Json<'_>, name: &'static str) -> Result<String> {
    match optional::<IdNumber>(alloc, element, name) {
        Ok(Some(n)) => Ok(format!(in alloc; "{n}")?),
        Ok(None) => Ok(format!(in alloc; "none")?),
        Err(e) => refused_text(alloc, e),
    }
}

/// What an attribute is read as if it is required, if it is optional, and if 5 is its default.
fn attribute_text(alloc: Global, element: &Json<'_>, name: &'static str) -> Result<String> {
    let must = id_text(alloc, needed::<IdNumber>(alloc, element, name))?;
    let may = optional_text(alloc, element, name)?;
    let else5 = id_text(alloc, with_default::<IdNumber>(alloc, element, name, 5))?;
    Ok(format!(in alloc; "{}; {}; {}", must.as_str(), may.as_str(), else5.as_str())?)
}
