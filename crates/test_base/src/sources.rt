//! Sources in memory and over readers.

use crate::fakes::{FakeReader, course_of, numbers_of};
use anyhow::{Result, bail};
use sbe_base::{BufferedSource, MemSource, Source, StdSource};
use std::alloc::Global;
use std::io::BufReader;
use test_tables::{Row, spelled};

/// The most bytes that a read asks for.
const MOST: usize = 16;

/// Reads once, like a caller that knows only the trait.
fn read_answer<I: Source>(alloc: Global, source: &mut I, many: usize) -> Result<String> {
    let mut buf = [b'.'; MOST];
    let many = many.min(MOST);
    match source.read(&mut buf[..many]) {
        Ok(n) => {
            let text = spelled(alloc, &buf)?;
            Ok(format!(in alloc; "{n} {}", text.as_str())?)
        }
        Err(_) => Ok(format!(in alloc; "failed")?),
    }
}

fn mem_reads(alloc: Global, source: &mut MemSource, sizes: &str) -> Result<String> {
    let mut text = String::new(alloc);
    for many in sizes.split(' ') {
        text.push_str(read_answer(alloc, source, many.parse::<usize>()?)?.as_str())?;
        text.push_str(", left ")?;
        text.push_str(spelled(alloc, source.left())?.as_str())?;
        text.push_str("; ")?;
    }
    Ok(text)
}

/// A row: bytes, how many a read gives, the reads that fail, and how many bytes each read asks for. Gives what is read,
/// and what is left.
pub fn mem_answer(alloc: Global, row: &Row) -> Result<String> {
    let piece = row.size(1)?;
    let sizes = row.text(3)?;
    if piece == 0 {
        bail!("a source gives some bytes a read");
    }
    let failing = numbers_of(alloc, row.text(2)?)?;
    let bytes = row.bytes(alloc, 0)?;
    let mut source = MemSource::new(alloc, bytes.as_slice(), piece, failing.as_slice())?;
    mem_reads(alloc, &mut source, sizes)
}

fn reads<I: Source>(alloc: Global, source: &mut I, sizes: &str) -> Result<String> {
    let mut text = String::new(alloc);
    for many in sizes.split(' ') {
        text.push_str(read_answer(alloc, source, many.parse::<usize>()?)?.as_str())?;
        text.push_str("; ")?;
    }
    Ok(text)
}

/// A row: bytes, the course of the reader, and how many bytes each read asks for. Gives what is read.
pub fn std_answer(alloc: Global, row: &Row) -> Result<String> {
    let sizes = row.text(4)?;
    let bytes = row.bytes(alloc, 0)?;
    let course = course_of(alloc, row, 1)?;
    let mut source = StdSource::new(FakeReader {
        course,
        bytes: bytes.as_slice(),
    });
    reads(alloc, &mut source, sizes)
}

/// What is lent ahead, whether `many` bytes of it are skipped, what is lent then, and one byte that is read.
fn passed_answer<I: Source>(alloc: Global, source: &mut I, many: usize) -> Result<String> {
    let lent = spelled(alloc, source.ahead())?;
    let passed = source.pass(many);
    let rest = spelled(alloc, source.ahead())?;
    let read = read_answer(alloc, source, 1)?;
    Ok(format!(in alloc;
        "lends {}, passes {passed}, lends {}, reads {}; ",
        lent.as_str(),
        rest.as_str(),
        read.as_str()
    )?)
}

fn passes<I: Source>(alloc: Global, source: &mut I, sizes: &str) -> Result<String> {
    let mut text = String::new(alloc);
    for many in sizes.split(' ') {
        text.push_str(passed_answer(alloc, source, many.parse::<usize>()?)?.as_str())?;
    }
    Ok(text)
}

/// A row: bytes, the size of the reader's buffer, and how many bytes are skipped before each read.
pub fn buffered_answer(alloc: Global, row: &Row) -> Result<String> {
    let size = row.size(1)?;
    let sizes = row.text(2)?;
    let bytes = row.bytes(alloc, 0)?;
    let reader = BufReader::with_capacity(alloc, size, bytes.as_slice())?;
    let mut source = BufferedSource::new(reader);
    passes(alloc, &mut source, sizes)
}
