//! Frames taken from a stream.

use crate::sources::{limits_of, range_of, source_of};
use anyhow::Result;
use frame_stream::{FrameStream, Taken};
use sbe_base::{BufferedSource, MemSource, Source};
use std::alloc::Global;
use std::io::BufReader;
use test_tables::Row;

/// Takes once: the answer, the frame's body, and what is held of the next one.
fn take_answer<I: Source>(
    alloc: Global,
    stream: &mut FrameStream,
    source: &mut I,
) -> Result<String> {
    let answer = stream.take(source);
    let body = hex::encode(alloc, stream.frame())?;
    let held = hex::encode(alloc, stream.held())?;
    let body = body.as_str();
    let held = held.as_str();
    match answer {
        Ok(Taken::Frame(head)) => {
            let length = head.length;
            let encoding = head.encoding;
            Ok(format!(in alloc; "frame of {length}, {encoding:04x} {body}, holds {held}")?)
        }
        Ok(Taken::End) => Ok(format!(in alloc; "end {body}, holds {held}")?),
        Ok(Taken::EndInside(n)) => Ok(format!(in alloc; "end inside {n} {body}, holds {held}")?),
        Err(e) => Ok(format!(in alloc; "{e:?} {body}, holds {held}")?),
    }
}

/// Takes several times from a source in memory: the answer to each, how many bytes the source then has left, and how
/// many were taken.
fn all_answer(
    alloc: Global,
    stream: &mut FrameStream,
    source: &mut MemSource,
    takes: usize,
) -> Result<String> {
    let mut text = String::new(alloc);
    for _ in 0..takes {
        text.push_str(take_answer(alloc, stream, source)?.as_str())?;
        let left = source.left().len();
        text.push_str(format!(in alloc; ", left {left}; ")?.as_str())?;
    }
    let taken = stream.taken();
    text.push_str(format!(in alloc; "taken {taken}")?.as_str())?;
    Ok(text)
}

/// The row with pieces of one size: a source, the sizes, the reads that fail, both limits, and how many takes.
fn in_piece(alloc: Global, row: &Row, piece: usize) -> Result<String> {
    let mut source = source_of(alloc, row, piece)?;
    let mut stream = FrameStream::open(alloc, limits_of(row, 3, 4)?)?;
    all_answer(alloc, &mut stream, &mut source, row.size(5)?)
}

/// The row with pieces of each size: the answer of all, or the first one that differs from the required one.
pub fn in_pieces(alloc: Global, row: &Row) -> Result<String> {
    let (low, high) = range_of(row.text(1)?)?;
    for piece in low..high {
        let told = in_piece(alloc, row, piece)?;
        if told.as_str() != row.wanted() {
            return Ok(format!(in alloc; "{piece} bytes a read: {}", told.as_str())?);
        }
    }
    in_piece(alloc, row, high)
}

/// Takes, and takes again if a read failed.
fn take_retried(alloc: Global, stream: &mut FrameStream, source: &mut MemSource) -> Result<String> {
    let told = take_answer(alloc, stream, source)?;
    if told.as_str().starts_with("ReadFault") {
        return take_answer(alloc, stream, source);
    }
    Ok(told)
}

/// The row with a source of which some reads fail: a source, the bytes of a read, which ones fail, both limits, and how
/// many takes, each of which is repeated if a read failed.
pub fn retried(alloc: Global, row: &Row) -> Result<String> {
    let mut source = source_of(alloc, row, row.size(1)?)?;
    let mut stream = FrameStream::open(alloc, limits_of(row, 3, 4)?)?;
    let mut text = String::new(alloc);
    for _ in 0..row.size(5)? {
        text.push_str(take_retried(alloc, &mut stream, &mut source)?.as_str())?;
        text.push_str("; ")?;
    }
    Ok(text)
}

/// Takes several times from any source.
fn takes_answer<I: Source>(
    alloc: Global,
    stream: &mut FrameStream,
    source: &mut I,
    takes: usize,
) -> Result<String> {
    let mut text = String::new(alloc);
    for _ in 0..takes {
        text.push_str(take_answer(alloc, stream, source)?.as_str())?;
        text.push_str("; ")?;
    }
    let taken = stream.taken();
    text.push_str(format!(in alloc; "taken {taken}")?.as_str())?;
    Ok(text)
}

/// The row with a source that lends what it has read ahead into a buffer of `capacity` bytes.
fn ahead_in(alloc: Global, row: &Row, capacity: usize) -> Result<String> {
    let bytes = row.bytes(alloc, 0)?;
    let reader = BufReader::with_capacity(alloc, capacity, bytes.as_slice())?;
    let mut source = BufferedSource::new(reader);
    let mut stream = FrameStream::open(alloc, limits_of(row, 2, 3)?)?;
    takes_answer(alloc, &mut stream, &mut source, row.size(4)?)
}

/// The row with buffers of each size: the answer of all, or the first one that differs from the required one.
pub fn read_ahead(alloc: Global, row: &Row) -> Result<String> {
    let (low, high) = range_of(row.text(1)?)?;
    for capacity in low..high {
        let told = ahead_in(alloc, row, capacity)?;
        if told.as_str() != row.wanted() {
            return Ok(format!(in alloc; "buffer of {capacity}: {}", told.as_str())?);
        }
    }
    ahead_in(alloc, row, high)
}
