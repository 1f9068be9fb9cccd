ghost use Rattle.std.specs.Prelude.{◌≡◌, ◌==◌, ◌&&◌, int_le, if◌then◌else◌, slice_index, Some, None};
ghost use Rattle.schema_rules.specs.Ranges.{number_between, number_in, character, value_number, bit_number, is_char, is_number_of};
ghost use Rattle.sbe_types.specs.Numbers.{prim_width};
ghost use Rattle.type_facts.specs.Wholes.{whole_in};

use sbe_types::Prim;
use schema_rules::Numbers;

/// The number of a valid value: if the encoding is char, its character; otherwise the number in its text.
pub fn value_number(prim: Prim, text: &[u8]) -> Option<i128>
    ensures { result ≡ value_number prim text.now }
{
    if prim == Prim::Char {
        character(text)
    } else {
        number_in(prim, text)
    }
}

/// The bit of a choice of a set with this primitive.
pub fn bit_number(prim: Prim, text: &[u8]) -> Option<i128>
    ensures { result ≡ bit_number (prim_width prim) text.now }
{
    number_between(0, 8 * prim.width() as i128 - 1, text)
}

/// The number in a text, if it is one of the primitive.
pub fn number_in(prim: Prim, text: &[u8]) -> Option<i128>
    ensures { result ≡ number_in prim text.now }
{
    let numbers = Numbers::of(prim);
    number_between(numbers.least, numbers.greatest, text)
}

/// Whether a number is one of the primitive.
pub fn is_number_of(prim: Prim, n: i128) -> bool
    ensures { result ≡ is_number_of prim n }
{
    let numbers = Numbers::of(prim);
    numbers.least <= n && n <= numbers.greatest
}

/// The number of a text of one character.
fn character(text: &[u8]) -> Option<i128>
    ensures { result ≡ character text.now }
{
    match text {
        [c] => Some(*c as i128),
        _ => None,
    }
}

/// The number in a text, if it is between these two.
fn number_between(least: i128, most: i128, text: &[u8]) -> Option<i128>
    ensures { result ≡ number_between least most text.now }
{
    match str::from_utf8(text) {
        Ok(text) => match whole_in(text) {
            Some(n) => kept_between(least, most, n),
            None => None,
        },
        Err(_) => None,
    }
}

fn kept_between(least: i128, most: i128, n: i128) -> Option<i128>
    ensures { result ≡ (if int_le least n && int_le n most then Some n else None) }
{
    if least <= n && n <= most {
        Some(n)
    } else {
        None
    }
}

/// The integer in a text, if it fits an `i128`.
fn whole_in(text: &str) -> Option<i128>
    ensures { result ≡ whole_in text.now }
{
    if has_plus(text.as_bytes()) {
        return None;
    }
    match text.parse::<i128>() {
        Ok(n) => Some(n),
        Err(_) => None,
    }
}

/// Whether a text begins with `+`, which `parse` would accept.
fn has_plus(text: &[u8]) -> bool
    ensures { result ≡ (slice_index text.now 0 == 43) }
{
    !text.is_empty() && text[0] == b'+'
}
