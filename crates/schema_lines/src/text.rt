ghost use Rattle.std.specs.Prelude.{◌≡◌, ◌<◌, decimal, flat_map};
ghost use Rattle.schema_lines.specs.Texts.{Puts, hex_digit, control_text, escaped, json_text};

use itoa::Buffer;
use lists::NoMem;

/// Appends bytes.
///
/// # Errors
///
/// If memory runs out. A prefix of the bytes may then have been appended.
pub fn put(out: &mut Vec<u8>, bytes: &[u8]) -> Result<(), NoMem>
    ensures { Puts result out.old.items out.new.items bytes.now }
{
    out.extend_from_slice(bytes)?;
    Ok(())
}

/// Appends a count in digits.
///
/// # Errors
///
/// If memory runs out. A prefix of the digits may then have been appended.
pub fn put_count(out: &mut Vec<u8>, count: u64) -> Result<(), NoMem>
    ensures { Puts result out.old.items out.new.items (decimal count) }
{
    let mut buffer = Buffer::new();
    put(out, buffer.format(count).as_bytes())
}

/// Appends a JSON string of these bytes: between quotes, with `"`, `\` and the bytes below a space escaped.
///
/// # Errors
///
/// If memory runs out. A prefix of the text may then have been appended.
pub fn put_json_text(out: &mut Vec<u8>, text: &[u8]) -> Result<(), NoMem>
    ensures { Puts result out.old.items out.new.items (json_text text.now) }
{
    put(out, b"\"")?;
    put_escaped(out, text)?;
    put(out, b"\"")
}

fn put_escaped(out: &mut Vec<u8>, text: &[u8]) -> Result<(), NoMem>
    ensures { Puts result out.old.items out.new.items (flat_map escaped text.now) }
{
    for byte in text {
        put_byte(out, *byte)?;
    }
    Ok(())
}

fn put_byte(out: &mut Vec<u8>, byte: u8) -> Result<(), NoMem>
    ensures { Puts result out.old.items out.new.items (escaped byte) }
{
    if byte == b'"' {
        put(out, b"\\\"")
    } else if byte == b'\\' {
        put(out, b"\\\\")
    } else if byte < b' ' {
        put_control(out, byte)
    } else {
        put(out, &[byte])
    }
}

/// Appends a byte below a space as its number in four hexadecimal digits.
fn put_control(out: &mut Vec<u8>, byte: u8) -> Result<(), NoMem>
    ensures { Puts result out.old.items out.new.items (control_text byte) }
{
    put(out, b"\\u00")?;
    put(out, &[hex_digit(byte / 16), hex_digit(byte % 16)])
}

fn hex_digit(n: u8) -> u8
    requires { n < 16 }
    ensures { result ≡ hex_digit n }
{
    if n < 10 { b'0' + n } else { b'a' + (n - 10) }
}
