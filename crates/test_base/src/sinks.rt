//! Sinks in memory and over writers.

use crate::fakes::{FakeReader, FakeWriter, Taken, course_of, numbers_of};
use anyhow::Result;
use sbe_base::{MemSink, Sink, StdSink, read_retried, write_all_to, write_retried};
use std::alloc::Global;
use std::cell::RefCell;
use std::io;
use test_tables::{Row, spelled};

/// Writes once, like a caller that knows only the trait: after `all ` each byte of the text, otherwise what is accepted
/// of it.
fn write_answer<O: Sink>(alloc: Global, sink: &mut O, text: &str) -> Result<String> {
    if let Some(all) = text.strip_prefix("all ") {
        let whole = write_all_to(sink, all.as_bytes()).is_ok();
        return Ok(format!(in alloc; "whole {whole}")?);
    }
    match sink.write(text.as_bytes()) {
        Ok(n) => Ok(format!(in alloc; "{n}")?),
        Err(_) => Ok(format!(in alloc; "failed")?),
    }
}

fn mem_steps(alloc: Global, sink: &mut MemSink, row: &Row) -> Result<String> {
    let mut text = String::new(alloc);
    for i in 2..row.len() {
        text.push_str(write_answer(alloc, sink, row.text(i)?)?.as_str())?;
        text.push_str(", holds ")?;
        text.push_str(spelled(alloc, sink.bytes())?.as_str())?;
        text.push_str("; ")?;
    }
    Ok(text)
}

/// A row: how many bytes there is room for, the writes that fail, and what is written. Gives the answer, and the
/// contents.
pub fn mem_answer(alloc: Global, row: &Row) -> Result<String> {
    let room = row.size(0)?;
    let failing = numbers_of(alloc, row.text(1)?)?;
    let mut sink = MemSink::new(alloc, room, failing.as_slice())?;
    mem_steps(alloc, &mut sink, row)
}

/// The contents of a writer, and how often it was called.
pub fn taken_text(alloc: Global, taken: &RefCell<Taken>) -> Result<String> {
    match taken.try_borrow() {
        Ok(taken) => {
            let held = spelled(alloc, taken.bytes.as_slice())?;
            let calls = taken.course.calls();
            Ok(format!(in alloc; "{} in {calls}", held.as_str())?)
        }
        Err(_) => Ok(format!(in alloc; "in use")?),
    }
}

/// A writer that wasn't called yet, whose course a row gives from this index on.
pub fn taken_of(alloc: Global, row: &Row, i: usize) -> Result<RefCell<Taken>> {
    Ok(RefCell::new(Taken {
        course: course_of(alloc, row, i)?,
        bytes: Vec::new(alloc),
    }))
}

fn std_steps<O: Sink>(
    alloc: Global,
    sink: &mut O,
    taken: &RefCell<Taken>,
    row: &Row,
) -> Result<String> {
    let mut text = String::new(alloc);
    for i in 3..row.len() {
        text.push_str(write_answer(alloc, sink, row.text(i)?)?.as_str())?;
        text.push_str(", holds ")?;
        text.push_str(taken_text(alloc, taken)?.as_str())?;
        text.push_str("; ")?;
    }
    Ok(text)
}

/// A row: the course of the writer, and what is written. Gives the answer, and the writer's contents and number of
/// calls.
pub fn std_answer(alloc: Global, row: &Row) -> Result<String> {
    let taken = taken_of(alloc, row, 0)?;
    let mut sink = StdSink::new(FakeWriter::new(&taken));
    std_steps(alloc, &mut sink, &taken, row)
}

fn count_text(alloc: Global, answer: io::Result<usize>) -> Result<String> {
    match answer {
        Ok(n) => Ok(format!(in alloc; "{n}")?),
        Err(e) => Ok(format!(in alloc; "{:?}", e.kind())?),
    }
}

/// What is read from a reader of `abc`.
fn read_text(alloc: Global, row: &Row) -> Result<String> {
    let mut reader = FakeReader {
        course: course_of(alloc, row, 0)?,
        bytes: b"abc",
    };
    let mut buf = [b'.'; 4];
    let read = count_text(alloc, read_retried(&mut reader, &mut buf))?;
    let bytes = spelled(alloc, &buf)?;
    let calls = reader.course.calls();
    Ok(format!(in alloc; "reads {} {} in {calls}", read.as_str(), bytes.as_str())?)
}

/// The answer when `de` is written.
fn written_text(alloc: Global, row: &Row) -> Result<String> {
    let taken = taken_of(alloc, row, 0)?;
    let mut writer = FakeWriter::new(&taken);
    let written = count_text(alloc, write_retried(&mut writer, b"de"))?;
    let held = taken_text(alloc, &taken)?;
    Ok(format!(in alloc; "writes {} {}", written.as_str(), held.as_str())?)
}

/// A row: the course of a reader, and of a writer. Gives what `read_retried` reads, what `write_retried` answers, and
/// the contents afterwards.
pub fn retried_answer(alloc: Global, row: &Row) -> Result<String> {
    let read = read_text(alloc, row)?;
    let written = written_text(alloc, row)?;
    Ok(format!(in alloc; "{}, {}", read.as_str(), written.as_str())?)
}
