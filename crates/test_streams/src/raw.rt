//! Tag-value texts, and the bytes between them, taken from a stream.

ghost use Rattle.std.specs.Prelude.{◌≤◌, IfOk};
ghost use Rattle.frame_stream.specs.declared.stream.TheConstants.{LONGEST_FRAME};
ghost use Rattle.raw_fix.specs.declared.items.TheConstants.{LEAST_FRAME};

use crate::sources::{limits_of, range_of, source_of};
use anyhow::{Result, bail};
use raw_fix::{LEAST_FRAME, RawStream, RawTaken};
use sbe_base::{Limits, MemSource};
use std::alloc::Global;
use tagvalue_codec::{DataTags, FieldTable};
use test_tables::Row;

/// What a stream is given with each take: the pairs of data tags, and a table.
#[derive(Drop)]
struct Space {
    tags: DataTags,
    table: FieldTable,
}

/// The limits that a row gives as its fourth and fifth items.
fn raw_limits(row: &Row) -> Result<Limits>
    ensures low { IfOk result (λ limits. LEAST_FRAME ≤ limits.frame) }
    ensures high { IfOk result (λ limits. limits.frame ≤ LONGEST_FRAME) }
{
    let limits = limits_of(row, 3, 4)?;
    if limits.frame < LEAST_FRAME {
        bail!("no stream takes texts of so few bytes");
    }
    Ok(limits)
}

impl Space {
    fn open(alloc: Global) -> Result<Space> {
        let mut tags = DataTags::new(alloc)?;
        tags.add(95, 96)?;
        let table = FieldTable::new(alloc)?;
        Ok(Space { tags, table })
    }

    /// Takes once: the answer, the text, and how many fields the table holds.
    fn take_answer(
        &mut self,
        alloc: Global,
        stream: &mut RawStream,
        source: &mut MemSource,
    ) -> Result<String> {
        let answer = stream.take(source, &self.tags, &mut self.table);
        let text = hex::encode(alloc, stream.text())?;
        let text = text.as_str();
        let fields = self.table.len();
        match answer {
            Ok(RawTaken::Message) => { Ok(format!(in alloc; "message {text}, fields {fields}; ")?) }
            Ok(RawTaken::Garbled { code, at, length }) => Ok(format!(in alloc;
                "{code:?} at {at} of {length} {text}, fields {fields}; "
            )?),
            Ok(RawTaken::End) => Ok(format!(in alloc; "end {text}, fields {fields}; ")?),
            Err(e) => Ok(format!(in alloc; "{e:?} {text}, fields {fields}; ")?),
        }
    }

    /// Takes, and takes again if a read failed.
    fn take_retried(
        &mut self,
        alloc: Global,
        stream: &mut RawStream,
        source: &mut MemSource,
    ) -> Result<String> {
        let told = self.take_answer(alloc, stream, source)?;
        if told.as_str().starts_with("ReadFault , fields 0") {
            return self.take_answer(alloc, stream, source);
        }
        Ok(told)
    }
}

/// The row with pieces of one size: a source, the sizes, the reads that fail, both limits, and how many takes.
fn in_piece(alloc: Global, space: &mut Space, row: &Row, piece: usize) -> Result<String> {
    let mut source = source_of(alloc, row, piece)?;
    let mut stream = RawStream::open(alloc, raw_limits(row)?)?;
    let mut text = String::new(alloc);
    for _ in 0..row.size(5)? {
        let told = space.take_answer(alloc, &mut stream, &mut source)?;
        text.push_str(told.as_str())?;
    }
    let taken = stream.taken();
    text.push_str(format!(in alloc; "taken {taken}")?.as_str())?;
    Ok(text)
}

/// The row with pieces of each size: the answer of all, or the first one that differs from the required one.
pub fn in_pieces(alloc: Global, row: &Row) -> Result<String> {
    let mut space = Space::open(alloc)?;
    let (low, high) = range_of(row.text(1)?)?;
    for piece in low..high {
        let told = in_piece(alloc, &mut space, row, piece)?;
        if told.as_str() != row.wanted() {
            return Ok(format!(in alloc; "{piece} bytes a read: {}", told.as_str())?);
        }
    }
    in_piece(alloc, &mut space, row, high)
}

/// The row with a source of which some reads fail: a source, the bytes of a read, which ones fail, both limits, and how
/// many takes, each of which is repeated if a read failed.
pub fn retried(alloc: Global, row: &Row) -> Result<String> {
    let mut source = source_of(alloc, row, row.size(1)?)?;
    let mut space = Space::open(alloc)?;
    let mut stream = RawStream::open(alloc, raw_limits(row)?)?;
    let mut text = String::new(alloc);
    for _ in 0..row.size(5)? {
        let told = space.take_retried(alloc, &mut stream, &mut source)?;
        text.push_str(told.as_str())?;
    }
    Ok(text)
}
