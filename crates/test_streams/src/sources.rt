//! What rows give to a stream.

ghost use Rattle.std.specs.Prelude.{◌≤◌, IfOk};

use anyhow::{Result, bail};
use frame_stream::LONGEST_FRAME;
use open_framing::HEAD_BYTES;
use sbe_base::{Limits, MemSource};
use std::alloc::Global;
use test_tables::Row;

/// The least and the greatest number of a range, such as `1-39`.
pub fn range_of(text: &str) -> Result<(usize, usize)> {
    match text.split_once('-') {
        Some((low, high)) => Ok((low.parse::<usize>()?, high.parse::<usize>()?)),
        None => bail!("no range: {text}"),
    }
}

/// The numbers of the reads that fail, separated by spaces.
fn failing(alloc: Global, text: &str) -> Result<Vec<u64>> {
    let mut calls = Vec::new(alloc);
    for word in text.split(' ') {
        if !word.is_empty() {
            calls.push(word.parse::<u64>()?)?;
        }
    }
    Ok(calls)
}

/// The source that a row gives as its first item, in pieces of `piece` bytes. The reads that the row lists as its third
/// item fail.
pub fn source_of(alloc: Global, row: &Row, piece: usize) -> Result<MemSource> {
    if piece == 0 {
        bail!("a source gives some bytes a read");
    }
    let bytes = row.bytes(alloc, 0)?;
    let calls = failing(alloc, row.text(2)?)?;
    Ok(MemSource::new(alloc, bytes.as_slice(), piece, calls.as_slice())?)
}

/// The most bytes of a frame and of the input, which a row gives at these indices.
pub fn limits_of(row: &Row, i: usize, j: usize) -> Result<Limits>
    ensures low { IfOk result (λ limits. HEAD_BYTES ≤ limits.frame) }
    ensures high { IfOk result (λ limits. limits.frame ≤ LONGEST_FRAME) }
{
    let frame = row.size(i)?;
    let input = row.text(j)?.parse::<u64>()?;
    if frame < HEAD_BYTES || frame > LONGEST_FRAME {
        bail!("no stream takes frames of so many bytes");
    }
    Ok(Limits { frame, input })
}
