//! Tag-value texts that are written, and read again.

use anyhow::{Result, bail};
use std::alloc::Global;
use tagvalue_codec::{DataTags, FieldTable, FixWriter, read_fix};
use test_tables::{Row, spelled};

/// How many bytes a text may have.
const LIMIT: usize = 20_000;

/// A row: nothing, or the bytes of a data field. Answers the text of type 0 without further fields, or of type U1 with the data field
/// 96 after its length field 95, and how many fields are read of it.
pub fn written_answer(alloc: Global, row: &Row) -> Result<String> {
    let mut writer = FixWriter::new(alloc, LIMIT)?;
    if row.len() == 0 {
        write_empty(&mut writer);
    } else {
        let data = row.bytes(alloc, 0)?;
        write_data(&mut writer, data.as_slice());
    }
    let text = spelled(alloc, writer.bytes())?;
    let fields = read_answer(alloc, writer.bytes())?;
    Ok(format!(in alloc; "{}, {}", text.as_str(), fields.as_str())?)
}

/// A row: how many fields `1=a` a text has between its type and its sum. Answers how many fields are read of it.
pub fn filled_answer(alloc: Global, row: &Row) -> Result<String> {
    let mut writer = FixWriter::new(alloc, LIMIT)?;
    write_fields(&mut writer, row.size(0)?);
    read_answer(alloc, writer.bytes())
}

fn write_empty(writer: &mut FixWriter) {
    match writer.start(b"FIX.4.4", b"0") {
        Ok(()) => writer.finish(),
        Err(_) => {}
    }
}

fn write_data(writer: &mut FixWriter, data: &[u8]) {
    if data.is_empty() {
        return;
    }
    match writer.start(b"FIX.4.4", b"U1") {
        Ok(()) => {}
        Err(_) => return,
    }
    match writer.data_field(95, 96, data) {
        Ok(()) => writer.finish(),
        Err(_) => {}
    }
}

fn write_fields(writer: &mut FixWriter, many: usize) {
    match writer.start(b"FIX.4.4", b"D") {
        Ok(()) => {}
        Err(_) => return,
    }
    for _ in 0..many {
        match writer.field(1, b"a") {
            Ok(()) => {}
            Err(_) => return,
        }
    }
    writer.finish();
}

/// How many fields are read of a text whose data fields are 96 after 95, or its first fault, after which none is held.
fn read_answer(alloc: Global, text: &[u8]) -> Result<String> {
    let mut tags = DataTags::new(alloc)?;
    tags.add(95, 96)?;
    let mut table = FieldTable::new(alloc)?;
    match read_fix(text, &tags, &mut table) {
        Ok(()) => Ok(format!(in alloc; "{} fields", table.len())?),
        Err(fault) => {
            let code = fault.code;
            let offset = fault.offset;
            Ok(format!(in alloc; "{code:?} at {offset}, {} fields", table.len())?)
        }
    }
}
