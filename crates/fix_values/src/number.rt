ghost use Rattle.std.specs.Prelude.{◌≡◌, ◌∷◌, ◌++◌, [], ◌<◌, ◌≤◌, ◌+◌, ◌^◌, pos, Ok, Err, Some, None, Option, length, IsTrue, int_le};
ghost use Rattle.std.specs.Fmt.{signed_decimal};
ghost use Rattle.sbe_types.specs.Numbers.{natural};
ghost use Rattle.sbe_types.specs.Shown as shown;
ghost use Rattle.fix_values.specs.Codes as codes;
ghost use Rattle.fix_values.specs.Values.{Leaves, text_of, value_of, can_show, can_read, is_asked, char_text, char_value, integer_value, whole_value};
ghost use Rattle.fix_values.specs.Decimals.{decimal_of};

use crate::code::{read_code, read_codes, show_code, show_codes};
use crate::decimal::{fit_decimal, read_decimal};
use crate::digits::{admitted, is_null, is_numeral, is_value, spelled, split_sign};
use crate::text::SOH;
use crate::{NumRule, Short, V};
use itoa::Buffer;
use named_numbers::is_listed;
use sbe_types::{Leaf, NamedList};

/// Writes the text of a number by its rule: FIX's datatypes int, float, char, Boolean and MultipleCharValue, and
/// Orchestra's code sets. Requires a rule by which numbers can be written ([`NumRule::can_show`]); for a character also
/// a number from 0 to 255, for a set one of 64 bits.
///
/// # Errors
///
/// `UnknownCode` if the number or a bit has no code, `Empty` for a set without a bit, `Soh` if the text of a code
/// contains SOH, `Spelling` for the character SOH. After an error `out` is empty.
pub fn show_num(rule: &NumRule, n: i128, out: &mut Short) -> Result<(), V>
    requires rule { IsTrue (can_show rule.now) }
    requires asked { IsTrue (is_asked rule.now n) }
    ensures { Leaves result out.new (text_of rule.now n) }
{
    out.clear();
    match rule {
        NumRule::Int | NumRule::Decimal => show_integer(n, out),
        NumRule::Char => show_char(n, out),
        NumRule::Boolean(names) => show_boolean(names, n, out),
        NumRule::Code(codes) => show_code(codes, n, out),
        NumRule::Codes(codes) => show_codes(codes, n, out),
    }
}

/// Reads a number by its rule, as one of the leaf's: FIX's datatypes int, float, char, Boolean and MultipleCharValue,
/// and Orchestra's code sets. Requires a rule by which texts can be read ([`NumRule::can_read`]). For a set the leaf is
/// ignored.
///
/// # Errors
///
/// `Spelling` if the text isn't spelled as the rule requires, `Inexact` if a decimal isn't an integer, `Range` if the
/// number isn't in the leaf's range or is its null, `UnknownCode` if nothing listed, apart from the null, has this
/// text: the first of these that applies.
pub fn read_num(rule: &NumRule, leaf: &Leaf, text: &[u8]) -> Result<i128, V>
    requires { IsTrue (can_read rule.now) }
    ensures { result ≡ value_of rule.now leaf.now text.now }
{
    match rule {
        NumRule::Int => read_integer(leaf, text),
        NumRule::Decimal => read_whole(leaf, text),
        NumRule::Char => read_char(leaf, text),
        NumRule::Boolean(names) => read_boolean(names, leaf, text),
        NumRule::Code(codes) => read_code(codes, leaf, text),
        NumRule::Codes(codes) => read_codes(codes, text),
    }
}

fn show_integer(n: i128, out: &mut Short) -> Result<(), V>
    requires { out.old ≡ [] }
    ensures { Leaves result out.new (Ok (signed_decimal n)) }
{
    let mut buffer = Buffer::new();
    out.extend(buffer.format(n).as_bytes());
    Ok(())
}

fn show_char(n: i128, out: &mut Short) -> Result<(), V>
    requires empty { out.old ≡ [] }
    requires low { IsTrue (int_le (pos 0) n) }
    requires high { IsTrue (int_le n (pos 255)) }
    ensures { Leaves result out.new (char_text (natural n)) }
{
    let byte = n as u8;
    if byte == SOH {
        return Err(V::Spelling);
    }
    out.push(byte);
    Ok(())
}

fn show_boolean(names: &NamedList, n: i128, out: &mut Short) -> Result<(), V>
    requires { out.old ≡ [] }
    ensures { Leaves result out.new (codes.boolean_shown names.now n) }
{
    let Some(text) = boolean_text(n) else {
        return Err(V::UnknownCode);
    };
    if !is_listed(names.as_slice(), n) {
        return Err(V::UnknownCode);
    }
    out.push(text);
    Ok(())
}

/// `Y` for 1 and the character `Y`, `N` for 0 and the character `N`.
pub fn boolean_text(n: i128) -> Option<u8>
    ensures { result ≡ codes.boolean_text n }
{
    if n == 1 || n == b'Y' as i128 {
        return Some(b'Y');
    }
    if n == 0 || n == b'N' as i128 {
        return Some(b'N');
    }
    None
}

fn read_integer(leaf: &Leaf, text: &[u8]) -> Result<i128, V>
    ensures { result ≡ integer_value leaf.now text.now }
{
    let (negative, digits) = split_sign(text);
    if !is_numeral(digits) {
        return Err(V::Spelling);
    }
    admitted(leaf, spelled(negative, digits))
}

fn read_whole(leaf: &Leaf, text: &[u8]) -> Result<i128, V>
    ensures { result ≡ whole_value leaf.now (decimal_of text.now) }
{
    let dec = read_decimal(text)?;
    fit_decimal(&dec, leaf, 0)
}

fn read_char(leaf: &Leaf, text: &[u8]) -> Result<i128, V>
    ensures { result ≡ char_value leaf.now text.now }
{
    if text.len() != 1 {
        return Err(V::Spelling);
    }
    let number = text[0] as i128;
    if is_value(leaf, number) {
        Ok(number)
    } else {
        Err(V::Range)
    }
}

fn read_boolean(names: &NamedList, leaf: &Leaf, text: &[u8]) -> Result<i128, V>
    ensures { result ≡ codes.boolean_number names.now leaf.now text.now }
{
    if text.len() != 1 || (text[0] != b'Y' && text[0] != b'N') {
        return Err(V::Spelling);
    }
    read_truth(names, leaf, text[0])
}

fn read_truth(names: &NamedList, leaf: &Leaf, byte: u8) -> Result<i128, V>
    ensures { result ≡ codes.truth_number names.now leaf.now byte }
{
    for name in names.as_slice() {
        if is_truth(byte, boolean_text(name.number)) && !is_null(leaf, name.number) {
            return Ok(name.number);
        }
    }
    Err(V::UnknownCode)
}

/// Whether this byte is the text of the truth value.
pub fn is_truth(byte: u8, truth: Option<u8>) -> bool
    ensures { result ≡ codes.is_truth byte truth }
{
    match truth {
        Some(text) => byte == text,
        None => false,
    }
}
