//! Lines taken from a stream.

use crate::sources::{range_of, source_of};
use anyhow::Result;
use frame_stream::{LineStream, LineTaken};
use open_framing::HEAD_BYTES;
use sbe_base::{Limits, MemSource};
use std::alloc::Global;
use test_tables::{Row, spelled};

/// A line longer than this is shown by its length, if its bytes are all the same.
const TOLD_WHOLE: usize = 64;

/// A line as it is shown.
fn line_answer(alloc: Global, line: &[u8]) -> Result<String> {
    if line.len() > TOLD_WHOLE {
        let first = line[0];
        if line.iter().all(|byte| *byte == first) {
            let many = line.len();
            return Ok(format!(in alloc; "{many} times {first:02x}")?);
        }
    }
    spelled(alloc, line)
}

/// Takes once: the answer and the line.
fn take_answer(alloc: Global, stream: &mut LineStream, source: &mut MemSource) -> Result<String> {
    let answer = stream.take(source);
    let line = line_answer(alloc, stream.line())?;
    let line = line.as_str();
    match answer {
        Ok(LineTaken::Line) => Ok(format!(in alloc; "line {line}; ")?),
        Ok(LineTaken::End) => Ok(format!(in alloc; "end {line}; ")?),
        Err(e) => Ok(format!(in alloc; "{e:?} {line}; ")?),
    }
}

/// Takes several times: the answer to each, and how many bytes were taken.
fn all_answer(
    alloc: Global,
    stream: &mut LineStream,
    source: &mut MemSource,
    takes: usize,
) -> Result<String> {
    let mut text = String::new(alloc);
    for _ in 0..takes {
        text.push_str(take_answer(alloc, stream, source)?.as_str())?;
    }
    let taken = stream.taken();
    text.push_str(format!(in alloc; "taken {taken}")?.as_str())?;
    Ok(text)
}

/// The row with pieces of one size: a source, the sizes, the reads that fail, the most bytes of the input, and how many
/// takes.
fn in_piece(alloc: Global, row: &Row, piece: usize) -> Result<String> {
    let limits = Limits {
        frame: HEAD_BYTES,
        input: row.text(3)?.parse::<u64>()?,
    };
    let mut source = source_of(alloc, row, piece)?;
    let mut stream = LineStream::open(alloc, limits)?;
    all_answer(alloc, &mut stream, &mut source, row.size(4)?)
}

/// The row with pieces of each size: the answer of all, or the first one that differs from the required one.
pub fn in_pieces(alloc: Global, row: &Row) -> Result<String> {
    let (low, high) = range_of(row.text(1)?)?;
    for piece in low..high {
        let told = in_piece(alloc, row, piece)?;
        if told.as_str() != row.wanted() {
            return Ok(format!(in alloc; "{piece} bytes a read: {}", told.as_str())?);
        }
    }
    in_piece(alloc, row, high)
}
