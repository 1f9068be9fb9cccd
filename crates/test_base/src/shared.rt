//! A writer with several users, and readers and writers that flush it first.

use crate::fakes::{FakeWriter, Taken};
use crate::sinks::{taken_of, taken_text};
use anyhow::{Result, bail};
use sbe_base::{FlushFirst, SharedWriter, Status, settled};
use std::alloc::Global;
use std::cell::RefCell;
use std::io::{Read, Write};
use test_tables::{Row, spelled};

/// One step over the writer: a write, a flush, a read or a note that flushes it first, a flush of notes, or the status
/// that ends a run.
fn step(
    alloc: Global,
    shared: &SharedWriter<FakeWriter<'_>>,
    kind: &str,
    text: &str,
) -> Result<String> {
    let mut hand = shared;
    match kind {
        "write" => answer_text(alloc, hand.write(text.as_bytes()).ok()),
        "flush" => answer_text(alloc, hand.flush().ok().map(|_| 0)),
        "read" => read_behind(alloc, shared, text.as_bytes()),
        "note" => note_behind(alloc, shared, text.as_bytes()),
        "settle" => settled_text(alloc, shared),
        _ => bail!("no step: {kind}"),
    }
}

fn answer_text(alloc: Global, answer: Option<usize>) -> Result<String> {
    match answer {
        Some(n) => Ok(format!(in alloc; "{n}")?),
        None => Ok(format!(in alloc; "failed")?),
    }
}

/// Two bytes of a text that is read.
fn read_behind(
    alloc: Global,
    shared: &SharedWriter<FakeWriter<'_>>,
    text: &[u8],
) -> Result<String> {
    let mut reader = FlushFirst::new(text, shared);
    let mut buf = [b'.'; 2];
    match reader.read(&mut buf) {
        Ok(_) => spelled(alloc, &buf),
        Err(_) => answer_text(alloc, None),
    }
}

/// A note, written and flushed by a user of its own.
fn note_behind(
    alloc: Global,
    shared: &SharedWriter<FakeWriter<'_>>,
    text: &[u8],
) -> Result<String> {
    let mut bytes = Vec::new(alloc);
    let mut notes = FlushFirst::new(&mut bytes, shared);
    let wrote = if text.is_empty() {
        notes.flush().ok().map(|_| 0)
    } else {
        notes.write(text).ok()
    };
    let answer = answer_text(alloc, wrote)?;
    let noted = spelled(alloc, bytes.as_slice())?;
    Ok(format!(in alloc; "{} noted {}", answer.as_str(), noted.as_str())?)
}

/// The statuses of runs whose last flush is made now.
fn settled_text(alloc: Global, shared: &SharedWriter<FakeWriter<'_>>) -> Result<String> {
    let mut hand = shared;
    let done = settled(Status::Done, hand.flush());
    let some = settled(Status::SomeRefused, hand.flush());
    let kept = settled(Status::SomeRefused, Ok(()));
    Ok(format!(in alloc; "{done:?} {some:?} {kept:?}")?)
}

fn steps(
    alloc: Global,
    shared: &SharedWriter<FakeWriter<'_>>,
    taken: &RefCell<Taken>,
    row: &Row,
) -> Result<String> {
    let mut text = String::new(alloc);
    for i in 3..row.len() {
        let word = row.text(i)?;
        let (kind, rest) = word.split_once(' ').unwrap_or((word, ""));
        text.push_str(step(alloc, shared, kind, rest)?.as_str())?;
        text.push_str(", ")?;
        text.push_str(taken_text(alloc, taken)?.as_str())?;
        text.push_str("; ")?;
    }
    Ok(text)
}

/// A row: the course of a writer with a buffer of four bytes in front of it, and steps. Gives the answer of each, and
/// what the writer was given in how many calls.
pub fn shared_answer(alloc: Global, row: &Row) -> Result<String> {
    let taken = taken_of(alloc, row, 0)?;
    let shared = SharedWriter::new(alloc, 4, FakeWriter::new(&taken))?;
    steps(alloc, &shared, &taken, row)
}
