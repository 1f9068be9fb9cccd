ghost use Rattle.std.specs.Prelude.{◌≡◌, [], codes, false, option_and_then, option_map, true};
ghost use Rattle.serde_json.specs.Find.{as_str, get_member};
ghost use Rattle.line_values.specs.declared.refusals.JCode.TheVariants as code;
ghost use Rattle.json_data.specs.Trees.{data_of, members_of};
ghost use Rattle.line_values.specs.Refusals.{Gives, refuse};
ghost use Rattle.line_values.specs.Objects.{hex_digits, hex_in, bytes_in};

use crate::refusals::{JCode, LineFault, refuse};
use hex::FromHexError;
use json_data::{Json, Pair, find};
use lists::{Bytes, List};
use std::alloc::Global;

/// The bytes of a text: those of a string, or of an object with their hex digits.
pub fn read_bytes(alloc: Global, found: &Json<'_>) -> Result<Bytes, LineFault>
    ensures { Gives result (bytes_in (data_of found.now)) }
{
    match found {
        Json::String(text) => Ok(List::from_slice(alloc, text.as_bytes())?),
        Json::Object(members) => read_hex(alloc, members),
        _ => refuse(alloc, JCode::Kind, b""),
    }
}

/// Whether all members have the key `hex`.
fn is_hex(members: &[Pair<'_>]) -> bool
    ensures only { result ≡ true → hex_in (members_of members.now) ≡ hex_digits (option_and_then as_str (get_member (codes "hex") (members_of members.now))) }
    ensures other { result ≡ false → hex_in (members_of members.now) ≡ refuse code.Kind [] }
{
    for (key, _) in members {
        if key.as_bytes() != "hex".as_bytes() {
            return false;
        }
    }
    true
}

/// The bytes of an object whose only key is `hex`.
fn read_hex(alloc: Global, members: &[Pair<'_>]) -> Result<Bytes, LineFault>
    ensures { Gives result (hex_in (members_of members.now)) }
{
    if !is_hex(members) {
        return refuse(alloc, JCode::Kind, b"");
    }
    match find(members, b"hex") {
        None => refuse(alloc, JCode::Kind, b""),
        Some(found) => read_digits(alloc, found.as_str()),
    }
}

/// The bytes of a string of hex digits, two for each.
fn read_digits(alloc: Global, digits: Option<&str>) -> Result<Bytes, LineFault>
    ensures { Gives result (hex_digits (option_map (λ s. s.now) digits.entry)) }
{
    match digits {
        None => refuse(alloc, JCode::Kind, b""),
        Some(digits) => match hex::decode(alloc, digits) {
            Ok(bytes) => Ok(List::from_slice(alloc, bytes.as_slice())?),
            Err(FromHexError::OutOfMemory) => Err(LineFault::Memory),
            Err(_) => refuse(alloc, JCode::Kind, b""),
        },
    }
}
