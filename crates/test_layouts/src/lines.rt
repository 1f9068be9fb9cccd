use lists::List;
use sbe_types::{DataField, Leaf, LeafShape, Level, Presence, Prim};
use schema_lines::{put_json_text, put_messages};
use std::alloc::Global;
use std::process::Abort;
use std::test::Fail;

fn part(alloc: Global) -> DataField {
    DataField {
        name: List::new(alloc),
        id: 9,
        since: 0,
        length: Leaf {
            prim: Prim::U16,
            presence: Presence::Required,
            low: 0,
            high: 65534,
            null: 65535,
            length: 1,
            shape: LeafShape::Number,
        },
    }
}

fn parts(alloc: Global, many: u32) -> Result<List<DataField>, Fail> {
    let mut data = List::new(alloc);
    for _ in 0..many {
        data.push(part(alloc))?;
    }
    Ok(data)
}

/// A message without groups, with `many` data parts.
fn message(alloc: Global, name: &str, id: u32, block: u32, many: u32) -> Result<Level, Fail> {
    let name = List::from_slice(alloc, name.as_bytes())?;
    let parts = parts(alloc, many)?;
    Ok(Level {
        name,
        id,
        semantic: List::new(alloc),
        since: 0,
        block_length: block,
        fields: List::new(alloc),
        groups: List::new(alloc),
        parts,
    })
}

/// Two messages with names that no schema file can have.
fn messages(alloc: Global) -> Result<List<Level>, Fail> {
    let mut messages = List::new(alloc);
    messages.push(message(alloc, "", 0, 0, 1)?)?;
    messages.push(message(alloc, "a\"b", 7, 2, 0)?)?;
    Ok(messages)
}

const LINES: &[u8] = b"{\"message\":\"\",\"id\":0,\"block\":0,\"groups\":0,\"data\":1}
{\"message\":\"a\\\"b\",\"id\":7,\"block\":2,\"groups\":0,\"data\":0}
";

fn printed(alloc: Global, messages: &[Level]) -> Result<Vec<u8>, Fail> {
    let mut out = Vec::new(alloc);
    put_messages(messages, &mut out)?;
    Ok(out)
}

#[test]
fn prints_a_line_for_each_message(rt: HostRuntime) -> Result<(), Fail> {
    let found = printed(rt.alloc(), messages(rt.alloc())?.as_slice())?;
    assert_eq!(rt; found.as_slice(), LINES);
    Ok(())
}

fn expect_text(rt: &impl Abort, alloc: Global, text: &[u8], wanted: &[u8]) -> Result<(), Fail> {
    let mut out = Vec::new(alloc);
    put_json_text(&mut out, text)?;
    assert_eq!(rt; out.as_slice(), wanted);
    Ok(())
}

#[test]
fn escapes_texts(rt: HostRuntime) -> Result<(), Fail> {
    let rows: [(&[u8], &[u8]); 9] = [
        (b"", b"\"\""),
        (b"messages/Grp.g", b"\"messages/Grp.g\""),
        (b"a\"b", b"\"a\\\"b\""),
        (b"a\\b", b"\"a\\\\b\""),
        (b"\\\"", b"\"\\\\\\\"\""),
        (b"\0", b"\"\\u0000\""),
        (b"\n\t", b"\"\\u000a\\u0009\""),
        (b"\x1f ", b"\"\\u001f \""),
        (b"\x7f\xc3\xa9/", b"\"\x7f\xc3\xa9/\""),
    ];
    for (text, wanted) in rows {
        expect_text(&rt, rt.alloc(), text, wanted)?;
    }
    Ok(())
}
