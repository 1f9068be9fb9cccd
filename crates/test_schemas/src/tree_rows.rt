//! Files that are read, each with an outline of its contents.

use crate::outline::add_schema;
use sbe_schema::read_schema;
use std::alloc::Global;
use std::process::Abort;
use std::test::Fail;

/// A file in pieces, and the outline of its contents, in pieces too.
#[derive(Clone, Copy)]
struct Row {
    file: [&'static str; 3],
    outline: [&'static str; 3],
}

/// Each attribute of each element, and each prefix.
const EVERY_ATTRIBUTE: Row = Row {
    file: [
        r#"{"sbe:messageSchema":{"id":"12","byteOrder":"bigEndian","headerType":"H","semanticVersion":9,"content":[
        {"types":{"content":["#,
        r#"{"type":{"name":"t","primitiveType":"float","length":2,"presence":"required","nullValue":"-1",
            "minValue":-2,"maxValue":18446744073709551615,"characterEncoding":"","valueRef":"E.a","text":"7","offset":5}},
        {"set":{"name":"W","encodingType":"uint8","content":[{"x:choice":{"name":"A","text":0}}]}},
        {"composite":{"name":"c","content":[
            {"enum":{"name":"E","encodingType":"char","offset":1,"sinceVersion":2}},
            {"set":{"name":"V","encodingType":"uint8","offset":2}},
            {"ref":{"name":"r","type":"t","offset":"3","sinceVersion":"4"}},
            {"composite":{"name":"d","offset":9,"content":[
                {"type":{"name":"u","primitiveType":"double","sinceVersion":5}}]}}]}}"#,
        r#"]}},{"message":{"name":"m","id":1,"sinceVersion":1,"blockLength":8,"content":[
            {"field":{"name":"f","id":4294967295,"type":"c","presence":"constant","valueRef":"E.b","offset":1048576}},
            {"group":{"name":"g","id":2,"dimensionType":"H","blockLength":"4"}}]}},{"types":{}}]}}"#,
    ],
    outline: [
        "schema 12 0  Big H
types
type t Float x2 Some(Required) Some(-1) Some(-2) Some(18446744073709551615)  E.a 7 at None since 0
set W uint8 at None since 0
A 0
",
        "composite c of 4 at None since 0
enum E char at Some(1) since 2
set V uint8 at Some(2) since 0
ref r t at Some(3) since 4
composite d of 1 at Some(9) since 0
type u Double x1 None None None None - -.- - at None since 5
",
        "message m 1 \"\" since 1 Some(8) of 2
field f 4294967295 c since 0 Some(Constant) at Some(1048576) E.b
group g 2 H since 0 Some(4) of 0
types
",
    ],
};

/// A text in pieces, as one.
fn concat(alloc: Global, pieces: [&'static str; 3]) -> Result<String, Fail> {
    let mut text = String::new(alloc);
    for piece in pieces {
        text.push_str(piece)?;
    }
    Ok(text)
}

/// Requires that the file of a row is read, and has the contents that the row states.
fn expect_outline(rt: &impl Abort, alloc: Global, row: &Row) -> Result<(), Fail> {
    let file = concat(alloc, row.file)?;
    let outline = concat(alloc, row.outline)?;
    let mut found = String::new(alloc);
    match read_schema(alloc, file.as_bytes()) {
        Err(_) => panic!(rt; "refused: {file}"),
        Ok(schema) => add_schema(alloc, &mut found, &schema)?,
    }
    assert_eq!(rt; found.as_str(), outline.as_str());
    Ok(())
}

#[test]
fn reads_every_attribute(rt: HostRuntime) -> Result<(), Fail> {
    expect_outline(&rt, rt.alloc(), &EVERY_ATTRIBUTE)
}
