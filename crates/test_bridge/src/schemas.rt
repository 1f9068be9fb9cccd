//! Schemas that rows name or hold.

use anyhow::{Result, bail};
use sbe_schema::read_schema;
use schema_check::{Checked, check};
use std::alloc::Global;
use std::fs;

/// The checked schema of a file.
pub fn load_checked(rt: &HostRuntime, path: &str) -> Result<Checked> {
    let text = fs::read_to_string(rt, path)?;
    read_checked(rt.alloc(), text.as_bytes())
}

/// The checked schema of a text.
pub fn read_checked(alloc: Global, text: &[u8]) -> Result<Checked> {
    let Ok(schema) = read_schema(alloc, text) else {
        bail!("the schema isn't read");
    };
    match check(alloc, schema) {
        Ok(checked) => Ok(checked),
        Err(_) => bail!("the schema is refused"),
    }
}
