//! Heads of frames.

use anyhow::Result;
use open_framing::{HEAD_BYTES, Head, HeadErr, put_head, read_head};
use std::alloc::Global;
use test_tables::{Row, spelled};

/// The answer to a row, or `None` if it names another call.
pub fn answer(alloc: Global, row: &Row) -> Result<Option<String>> {
    let text = match row.call() {
        "read_head" => head_read(alloc, row)?,
        "put_head" => head_put(alloc, row)?,
        _ => return Ok(None),
    };
    Ok(Some(text))
}

fn fault_text(alloc: Global, e: HeadErr) -> Result<String> {
    match e {
        HeadErr::HeadShort => Ok(format!(in alloc; "short head")?),
        HeadErr::LengthShort(n) => Ok(format!(in alloc; "too short: {n}")?),
        HeadErr::LengthOver(n) => Ok(format!(in alloc; "too long: {n}")?),
        HeadErr::Encoding(n) => Ok(format!(in alloc; "encoding {n}")?),
    }
}

fn head_read(alloc: Global, row: &Row) -> Result<String> {
    let bytes = row.bytes(alloc, 0)?;
    match read_head(bytes.as_slice(), row.size(1)?) {
        Ok(head) => {
            let length = head.length;
            let encoding = head.encoding;
            Ok(format!(in alloc; "{length} bytes, {encoding:04x}")?)
        }
        Err(e) => fault_text(alloc, e),
    }
}

/// Writes a head with this length and encoding over other bytes.
fn head_put(alloc: Global, row: &Row) -> Result<String> {
    let mut out = [0xff; HEAD_BYTES];
    let head = Head {
        length: row.text(0)?.parse::<u32>()?,
        encoding: row.text(1)?.parse::<u16>()?,
    };
    put_head(&head, &mut out);
    spelled(alloc, &out)
}
