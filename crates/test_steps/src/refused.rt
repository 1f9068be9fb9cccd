//! Answers about elements of files.

use anyhow::{Result, bail};
use json_elements::{ElementErr, path_of};
use std::alloc::Global;
use test_tables::spelled;

/// The cause of a refusal, and the pointer to its place.
pub fn refused_text(alloc: Global, e: ElementErr) -> Result<String> {
    match e {
        ElementErr::Memory => bail!("out of memory"),
        ElementErr::Refused(cause, steps) => {
            let path = path_of(alloc, steps.as_slice())?;
            let path = spelled(alloc, path.as_slice())?;
            Ok(format!(in alloc; "{cause:?} at {}", path.as_str())?)
        }
    }
}

/// A number that was read, or the refusal.
pub fn number_text(alloc: Global, read: std::result::Result<i128, ElementErr>) -> Result<String> {
    match read {
        Ok(n) => Ok(format!(in alloc; "{n}")?),
        Err(e) => refused_text(alloc, e),
    }
}

/// That something was done, or the refusal.
pub fn done_text(alloc: Global, done: std::result::Result<(), ElementErr>) -> Result<String> {
    match done {
        Ok(()) => Ok(format!(in alloc; "done")?),
        Err(e) => refused_text(alloc, e),
    }
}
