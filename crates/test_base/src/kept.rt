//! Lists, and the codes of statuses.

use anyhow::Result;
use lists::{List, NoMem};
use sbe_base::Status;
use std::alloc::Global;
use test_tables::Row;

/// A row: bytes, from which a list is made in each possible manner. Answers its contents.
pub fn list_answer(alloc: Global, row: &Row) -> Result<String> {
    let bytes = row.bytes(alloc, 0)?;
    let mut list = List::new(alloc);
    let empty = list.is_empty();
    list.extend(bytes.as_slice())?;
    list.push(b'!')?;
    let copy = List::from_slice(alloc, list.as_slice())?;
    let digits = hex::encode(alloc, copy.as_slice())?;
    let first = if copy.is_empty() { 0 } else { *copy.at(0) };
    let error = NoMem;
    Ok(format!(in alloc;
        "{empty}, {} items: {}, the first {first:02x}; {error}",
        copy.len(),
        digits.as_str()
    )?)
}

/// The code of each status.
pub fn codes_answer(alloc: Global) -> Result<String> {
    let all = [
        Status::Done,
        Status::SomeRefused,
        Status::Usage,
        Status::SchemaRefused,
        Status::MapRefused,
        Status::FramingRefused,
        Status::FileFault,
        Status::ReadFault,
        Status::WriteFault,
        Status::NoMemory,
        Status::InputLimit,
        Status::NoFile,
    ];
    let mut text = String::new(alloc);
    for status in all {
        let code = status.code();
        text.push_str(format!(in alloc; "{status:?} {code}; ")?.as_str())?;
    }
    Ok(text)
}
