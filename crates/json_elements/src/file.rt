ghost use Rattle.std.specs.Prelude.{◌≡◌};
ghost use Rattle.json_data.specs.Trees.{data_of};
ghost use Rattle.json_elements.specs.Reading.{GivesAs};
ghost use Rattle.json_elements.specs.Files.{is_tag, is_xml, value_of};

use crate::refusal::{Cause, ElementErr, refuse};
use json_data::{Json, JsonFault, JsonSpace};
use std::alloc::Global;

/// The most bytes that a file may have.
pub const FILE_LIMIT: usize = 1_048_576;

/// The JSON value of a file, borrowed from its bytes and from the space that reads it. A file is refused if it is too
/// long, begins like XML, or isn't a JSON text.
#[tactic(auto, using(crate::proofs::Values::value_found, crate::proofs::Values::no_value))]
pub fn read_value<'a>(
    alloc: Global,
    space: &'a mut JsonSpace,
    bytes: &'a [u8],
) -> Result<Json<'a>, ElementErr>
    ensures { GivesAs data_of result (value_of bytes.now) }
{
    if bytes.len() > FILE_LIMIT {
        return refuse(alloc, Cause::Limit);
    }
    if looks_like_xml(bytes) {
        return refuse(alloc, Cause::Xml);
    }
    match space.read(bytes) {
        Ok(value) => Ok(value),
        Err(JsonFault::NotJson) => refuse(alloc, Cause::NotJson),
        Err(JsonFault::Memory) => Err(ElementErr::Memory),
    }
}

/// Whether the first byte after a byte order mark and white space is `<`.
fn looks_like_xml(bytes: &[u8]) -> bool
    ensures { result ≡ is_xml bytes.now }
{
    if bytes.len() >= 3 && bytes[0] == 0xef && bytes[1] == 0xbb && bytes[2] == 0xbf {
        starts_with_tag(&bytes[3..])
    } else {
        starts_with_tag(bytes)
    }
}

fn starts_with_tag(text: &[u8]) -> bool
    ensures { result ≡ is_tag text.now }
{
    for byte in text {
        if !matches!(*byte, b' ' | b'\t' | b'\n' | b'\r') {
            return *byte == b'<';
        }
    }
    false
}
