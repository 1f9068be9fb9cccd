//! Answers as text.

use anyhow::Result;
use fix_values::{Short, V};
use std::alloc::Global;
use test_tables::spelled;

/// The text that a call wrote, or the code of its refusal, which leaves no text.
pub fn shown(alloc: Global, answer: std::result::Result<(), V>, out: &Short) -> Result<String> {
    match answer {
        Ok(()) => spelled(alloc, out.bytes()),
        Err(v) if out.is_empty() => Ok(format!(in alloc; "{v}")?),
        Err(v) => Ok(format!(in alloc; "{v} with a text")?),
    }
}

/// The number that was read, or the code of its refusal.
pub fn number_read(alloc: Global, answer: std::result::Result<i128, V>) -> Result<String> {
    match answer {
        Ok(n) => Ok(format!(in alloc; "{n}")?),
        Err(v) => Ok(format!(in alloc; "{v}")?),
    }
}

/// That a text is accepted, or the code of its refusal.
pub fn taken(alloc: Global, answer: std::result::Result<(), V>) -> Result<String> {
    match answer {
        Ok(()) => Ok(format!(in alloc; "taken")?),
        Err(v) => Ok(format!(in alloc; "{v}")?),
    }
}

/// A buffer for a text that already holds another one.
pub fn used() -> Short {
    let mut out = Short::new();
    out.push(b'x');
    out
}
