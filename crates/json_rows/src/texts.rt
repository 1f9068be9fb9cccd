// Adds the texts that are the same in each line to bytes.
ghost use Rattle.std.specs.Prelude.{◌≡◌, ◌++◌, ◌==◌, ◌||◌, true, OnOk, if◌then◌else◌};
ghost use Rattle.std.specs.List.{list_all};
ghost use Rattle.json.specs.Print.{escape, escape_byte, quoted};
ghost use Rattle.serde_json.specs.Find.{of_integer};
ghost use Rattle.serde_json.specs.Written.{number_text};
ghost use Rattle.schema_facts.specs.InOrder.{IsConstantInOrder};
ghost use Rattle.json_rows.specs.Texts.{key_of, constant_text, hex_text, is_seen};

use itoa::Buffer;
use json_values::{HEX_END, HEX_FRONT};
use lists::NoMem;
use sbe_types::ConstValue;
use std::alloc::Global;

/// Adds a quoted name and a colon, preceded by a comma if another member precedes it.
pub(crate) fn put_key(bytes: &mut Vec<u8>, later: bool, name: &[u8]) -> Result<(), NoMem>
    ensures { OnOk result (bytes.new.items ≡ bytes.old.items ++ key_of later name.now) }
{
    if later {
        bytes.extend_from_slice(b",\"")?;
    } else {
        bytes.extend_from_slice(b"\"")?;
    }
    bytes.extend_from_slice(name)?;
    bytes.extend_from_slice(b"\":")?;
    Ok(())
}

/// Adds a constant as its value; a valid value by its name.
pub(crate) fn put_constant(
    alloc: Global,
    bytes: &mut Vec<u8>,
    constant: &ConstValue,
) -> Result<(), NoMem>
    requires { IsConstantInOrder constant.now }
    ensures { OnOk result (bytes.new.items ≡ bytes.old.items ++ constant_text constant.now) }
{
    match constant {
        ConstValue::Num(n) => put_number(bytes, n),
        ConstValue::Text(text) => put_text(alloc, bytes, text.as_slice()),
        ConstValue::Code(_, named) => put_quoted(bytes, named.name.as_slice()),
    }
}

/// Adds an integer.
fn put_number(bytes: &mut Vec<u8>, n: &i128) -> Result<(), NoMem>
    ensures { OnOk result (bytes.new.items ≡ bytes.old.items ++ number_text (of_integer n.now)) }
{
    let mut buffer = Buffer::new();
    bytes.extend_from_slice(buffer.format(*n).as_bytes())?;
    Ok(())
}

/// Adds bytes as a string if each is from 20 to 7e, and otherwise as `{"hex":"61ff"}`.
fn put_text(alloc: Global, bytes: &mut Vec<u8>, text: &[u8]) -> Result<(), NoMem>
    ensures { OnOk result (bytes.new.items ≡ bytes.old.items ++ (if list_all is_seen text.now then quoted text.now else hex_text text.now)) }
{
    if is_seen(text) {
        put_quoted(bytes, text)
    } else {
        put_hex(alloc, bytes, text)
    }
}

/// Whether each byte is from 20 to 7e.
fn is_seen(text: &[u8]) -> bool
    ensures { result ≡ list_all is_seen text.now }
{
    text.iter().all(|b| *b >= b' ' && *b <= b'~')
}

/// Adds bytes from 20 to 7e as a string of JSON (RFC 8259, Strings).
fn put_quoted(bytes: &mut Vec<u8>, text: &[u8]) -> Result<(), NoMem>
    requires { list_all is_seen text.now ≡ true }
    ensures { OnOk result (bytes.new.items ≡ bytes.old.items ++ quoted text.now) }
{
    bytes.extend_from_slice(b"\"")?;
    put_escaped(bytes, text)?;
    bytes.extend_from_slice(b"\"")?;
    Ok(())
}

/// Adds bytes from 20 to 7e, escaped where necessary.
fn put_escaped(bytes: &mut Vec<u8>, text: &[u8]) -> Result<(), NoMem>
    requires { list_all is_seen text.now ≡ true }
    ensures { OnOk result (bytes.new.items ≡ bytes.old.items ++ escape text.now) }
{
    for byte in text {
        put_byte(bytes, *byte)?;
    }
    Ok(())
}

/// Adds a byte from 20 to 7e, preceded by a `\` if necessary.
#[tactic(auto, using(crate::proofs::Hex::byte_escaped, crate::proofs::Hex::byte_itself))]
fn put_byte(bytes: &mut Vec<u8>, byte: u8) -> Result<(), NoMem>
    requires { is_seen byte ≡ true }
    ensures { OnOk result (bytes.new.items ≡ bytes.old.items ++ escape_byte byte) }
{
    if is_escaped(byte) {
        bytes.extend_from_slice(&[b'\\', byte])?;
        Ok(())
    } else {
        bytes.extend_from_slice(&[byte])?;
        Ok(())
    }
}

/// Whether the byte needs a `\` before it.
fn is_escaped(byte: u8) -> bool
    ensures { result ≡ ((byte == 34) || (byte == 92)) }
{
    byte == b'"' || byte == b'\\'
}

/// Adds bytes as an object with their hexadecimal digits.
fn put_hex(alloc: Global, bytes: &mut Vec<u8>, text: &[u8]) -> Result<(), NoMem>
    ensures { OnOk result (bytes.new.items ≡ bytes.old.items ++ hex_text text.now) }
{
    let digits = hex::encode(alloc, text)?;
    bytes.extend_from_slice(HEX_FRONT)?;
    bytes.extend_from_slice(digits.as_bytes())?;
    bytes.extend_from_slice(HEX_END)?;
    Ok(())
}
