ghost use Rattle.std.specs.Prelude.{◌≡◌, ◌<◌, ◌≤◌, ◌/◌, ◌%◌, ◌∷◌, ◌++◌, [], ◌+◌, length, take, drop, true, slice_index};
ghost use Rattle.std.specs.Char.{digit_char};
ghost use Rattle.std.specs.List.{list_all};
ghost use Rattle.hex.specs.Hex.{encode_lower, lower_digits};
ghost use Rattle.json.specs.Print.{escape, escape_byte, escape_letter};
ghost use Rattle.serde_json.specs.Data.{string};
ghost use Rattle.serde_json.specs.Written.{comma_if};
ghost use Rattle.json_values.specs.Values.{hex, hex_pairs, text_data, is_printable};
ghost use Rattle.json_values.specs.Plain.{plain_text, key_text, is_plain_byte};
ghost use Rattle.printers.specs.Prints.{Prints};

use crate::runs::plain_run;
use printers::Printer;
use sbe_base::Sink;

const HEX_DIGITS: &[u8; 16] = b"0123456789abcdef";

/// Prints bytes as a string if each is from 20 to 7e, and otherwise as `{"hex":"61ff"}`.
#[tactic(auto, using(crate::proofs::Plainly::shows_plain, crate::proofs::Plainly::shows_printable, crate::proofs::Plainly::shows_hex))]
pub fn put_text<O: Sink>(printer: &mut Printer<'_, O>, bytes: &[u8])
    ensures { Prints O.state printer.old printer.new (plain_text (text_data bytes.now)) }
{
    if is_plain(bytes) {
        put_plain(printer, bytes);
    } else if is_printable(bytes) {
        put_quoted(printer, bytes);
    } else {
        put_hex(printer, bytes);
    }
}

/// Prints a string of JSON (RFC 8259, Strings).
pub fn put_string<O: Sink>(printer: &mut Printer<'_, O>, bytes: &[u8])
    ensures { Prints O.state printer.old printer.new (plain_text (string bytes.now)) }
{
    if is_plain(bytes) {
        put_plain(printer, bytes);
    } else {
        put_quoted(printer, bytes);
    }
}

/// Prints the key of a member, preceded by a comma if another member precedes it: its name between quotes, and a colon.
#[inline(always)]
pub fn put_key<O: Sink>(printer: &mut Printer<'_, O>, later: bool, name: &[u8])
    ensures { Prints O.state printer.old printer.new (comma_if later ++ key_text name.now) }
{
    if later {
        printer.put_between(b",\"", name, b"\":");
    } else {
        printer.put_between(b"\"", name, b"\":");
    }
}

/// Whether each byte is printable and needs no escaping in a string.
#[inline(always)]
fn is_plain(bytes: &[u8]) -> bool
    ensures { result ≡ list_all is_plain_byte bytes.now }
{
    plain_run(bytes) == bytes.len()
}

/// Whether each byte is from 20 to 7e.
fn is_printable(bytes: &[u8]) -> bool
    ensures { result ≡ list_all is_printable bytes.now }
{
    bytes.iter().all(|b| *b >= b' ' && *b <= b'~')
}

/// Prints bytes that need no escaping between quotes.
#[inline(always)]
fn put_plain<O: Sink>(printer: &mut Printer<'_, O>, bytes: &[u8])
    requires { list_all is_plain_byte bytes.now ≡ true }
    ensures { Prints O.state printer.old printer.new (plain_text (string bytes.now)) }
{
    printer.put_in_quotes(bytes);
}

/// Prints the first `run` bytes of a field, which need no escaping, between quotes.
#[inline(always)]
pub fn put_plain_front<O: Sink>(printer: &mut Printer<'_, O>, field: &[u8], run: usize)
    requires run { run ≤ length field.now }
    requires plain { list_all is_plain_byte (take run field.now) ≡ true }
    ensures { Prints O.state printer.old printer.new (plain_text (string (take run field.now))) }
{
    printer.put_front_in_quotes(field, run);
}

/// Prints bytes between quotes, escaped where necessary.
#[inline(never)]
fn put_quoted<O: Sink>(printer: &mut Printer<'_, O>, bytes: &[u8])
    ensures { Prints O.state printer.old printer.new (plain_text (string bytes.now)) }
{
    printer.put(b"\"");
    put_escaped(printer, bytes);
    printer.put(b"\"");
}

/// Prints bytes, escaped where necessary.
fn put_escaped<O: Sink>(printer: &mut Printer<'_, O>, bytes: &[u8])
    ensures { Prints O.state printer.old printer.new (escape bytes.now) }
{
    for byte in bytes {
        put_escaped_byte(printer, *byte);
    }
}

#[tactic(auto, using(crate::proofs::Plainly::escapes_short, crate::proofs::Plainly::escapes_control, crate::proofs::Plainly::escapes_none))]
fn put_escaped_byte<O: Sink>(printer: &mut Printer<'_, O>, byte: u8)
    ensures { Prints O.state printer.old printer.new (escape_byte byte) }
{
    let letter = escape_letter(byte);
    if letter > 0 {
        printer.put(&[b'\\', letter]);
    } else if byte < b' ' {
        put_control(printer, byte);
    } else {
        printer.put(&[byte]);
    }
}

/// The letter after the `\` of a byte's short escape, or 0 if it has none.
fn escape_letter(byte: u8) -> u8
    ensures { result ≡ escape_letter byte }
{
    match byte {
        b'"' | b'\\' => byte,
        8 => b'b',
        12 => b'f',
        b'\n' => b'n',
        b'\r' => b'r',
        b'\t' => b't',
        _ => 0,
    }
}

/// Prints a byte below a space as its number.
fn put_control<O: Sink>(printer: &mut Printer<'_, O>, byte: u8)
    ensures { Prints O.state printer.old printer.new (92 ∷ 117 ∷ 48 ∷ 48 ∷ digit_char (byte / 16) ∷ digit_char (byte % 16) ∷ []) }
{
    printer.put(b"\\u00");
    printer.put(&[hex_digit(byte / 16), hex_digit(byte % 16)]);
}

/// The text before the digits of bytes that are printed in hexadecimal.
pub const HEX_FRONT: &[u8] = b"{\"hex\":\"";

/// The text after these digits.
pub const HEX_END: &[u8] = b"\"}";

/// Prints bytes as an object with their hexadecimal digits.
#[inline(never)]
fn put_hex<O: Sink>(printer: &mut Printer<'_, O>, bytes: &[u8])
    ensures { Prints O.state printer.old printer.new (plain_text (hex bytes.now)) }
{
    printer.put(HEX_FRONT);
    put_digits(printer, bytes);
    printer.put(HEX_END);
}

/// Prints two digits for each byte.
fn put_digits<O: Sink>(printer: &mut Printer<'_, O>, bytes: &[u8])
    ensures { Prints O.state printer.old printer.new (encode_lower bytes.now) }
{
    for byte in bytes {
        put_byte(printer, *byte);
    }
}

/// The two hexadecimal digits of each byte, one after another.
const HEX_PAIRS: &[u8] =
    b"000102030405060708090a0b0c0d0e0f101112131415161718191a1b1c1d1e1f202122232425262728292a2b2c2d2e2f303132333435363738393a3b3c3d3e3f404142434445464748494a4b4c4d4e4f505152535455565758595a5b5c5d5e5f606162636465666768696a6b6c6d6e6f707172737475767778797a7b7c7d7e7f808182838485868788898a8b8c8d8e8f909192939495969798999a9b9c9d9e9fa0a1a2a3a4a5a6a7a8a9aaabacadaeafb0b1b2b3b4b5b6b7b8b9babbbcbdbebfc0c1c2c3c4c5c6c7c8c9cacbcccdcecfd0d1d2d3d4d5d6d7d8d9dadbdcdddedfe0e1e2e3e4e5e6e7e8e9eaebecedeeeff0f1f2f3f4f5f6f7f8f9fafbfcfdfeff";

/// Prints the two digits of a byte.
fn put_byte<O: Sink>(printer: &mut Printer<'_, O>, byte: u8)
    ensures { Prints O.state printer.old printer.new (encode_lower (byte ∷ [])) }
{
    printer.put(hex_pair(byte));
}

/// The two hexadecimal digits of a byte.
#[inline(always)]
#[tactic(auto, using(crate::proofs::Plainly::hex_pair_there))]
fn hex_pair(byte: u8) -> &'static [u8]
    ensures { result.now ≡ encode_lower (byte ∷ []) }
{
    hex_digits_at(2 * byte as usize)
}

/// Two digits of the table.
#[inline(always)]
fn hex_digits_at(at: usize) -> &'static [u8]
    requires { at + 2 ≤ 512 }
    ensures { result.now ≡ take 2 (drop at hex_pairs) }
{
    &HEX_PAIRS[at..at + 2]
}

/// A hexadecimal digit.
#[inline(always)]
pub fn hex_digit(n: u8) -> u8
    requires { n < 16 }
    ensures { result ≡ slice_index lower_digits n }
{
    HEX_DIGITS[n as usize]
}
