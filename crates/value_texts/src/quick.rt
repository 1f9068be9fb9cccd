// The texts that most values have, without the general rules.
ghost use Rattle.std.specs.Prelude.{◌≡◌, ◌<◌, ℕ, List, false, true, length, Ok, Some};
ghost use Rattle.std.specs.Fmt.{signed_decimal};
ghost use Rattle.fix_values.specs.Codes.{code_text, found_text, has_soh};
ghost use Rattle.fix_values.specs.Decimals.{dec, decimal_text};
ghost use Rattle.fix_values.specs.Values.{text_shown};
ghost use Rattle.bridge_rules.specs.Texts.{field_text, judged_text};
ghost use Rattle.value_texts.specs.Fronts.{IsFront};
ghost use Rattle.code_search.specs.Growing.{AreGrowing};
ghost use Rattle.value_texts.specs.Quick.{HasValue, IsQuick};

use crate::fronts::Front;
use crate::small::{SMALL_ROOM, small_of, write_small};
use code_search::code_of;
use fix_values::{Code, CodeList, show_text};
use itoa::write_digits;

/// The byte that ends a field (FIX tag-value encoding).
const SOH: u8 = 1;

/// What a value gives, where it is found without the general rules.
#[derive(Clone, Copy)]
pub(crate) enum Quick<'a> {
    /// This text.
    Text(&'a [u8]),
    /// The text at the end of the room, from this offset on.
    Room(usize),
    /// No field.
    Nothing,
    /// The general rules decide.
    Other,
}

/// The digits of a number from 0 on of at most 64 bits.
#[inline(always)]
pub(crate) fn quick_digits<'a>(n: i128, room: &mut [u8; SMALL_ROOM]) -> Quick<'a>
    requires { length room.old ≡ SMALL_ROOM }
    ensures long { length room.new ≡ SMALL_ROOM }
    ensures value { HasValue result room.new }
    ensures told { IsQuick result room.new (Ok (Some (signed_decimal n))) }
{
    match u64::try_from(n) {
        Ok(size) => Quick::Room(write_digits(size, room, SMALL_ROOM)),
        Err(_) => Quick::Other,
    }
}

/// A decimal with a mantissa of at most 64 bits.
#[inline(always)]
pub(crate) fn quick_decimal<'a>(
    mantissa: i128,
    exponent: i128,
    room: &mut [u8; SMALL_ROOM],
) -> Quick<'a>
    requires { length room.old ≡ SMALL_ROOM }
    ensures long { length room.new ≡ SMALL_ROOM }
    ensures value { HasValue result room.new }
    ensures told { IsQuick result room.new (field_text (decimal_text (dec mantissa exponent))) }
{
    match small_of(mantissa, exponent) {
        Some(small) => Quick::Room(write_small(small, room)),
        None => Quick::Other,
    }
}

/// A text that is known to have no SOH.
#[inline(always)]
pub(crate) fn quick_front<'a>(front: Front<'a>) -> Quick<'a>
    requires { IsFront front }
    ensures value { (room : List ℕ) → HasValue result room }
    ensures told { (room : List ℕ) → IsQuick result room (field_text (judged_text front.entry.text.now (text_shown front.entry.text.now))) }
{
    if !front.plain {
        return Quick::Other;
    }
    if front.text.is_empty() {
        return Quick::Other;
    }
    Quick::Text(front.text)
}

/// The text of the first code with this number. Codes whose numbers grow are searched by halves.
#[inline(always)]
pub(crate) fn quick_code(codes: &CodeList, grows: bool, n: i128) -> Quick<'_>
    requires { grows ≡ true → AreGrowing codes.now }
    ensures value { (room : List ℕ) → HasValue result room }
    ensures told { (room : List ℕ) → IsQuick result room (field_text (code_text codes.now n)) }
{
    if grows && let Some(code) = code_of(codes.as_slice(), n) {
        return quick_code_text(code);
    }
    for code in codes.as_slice() {
        if code.number == n {
            return quick_code_text(code);
        }
    }
    Quick::Other
}

/// The text of a code, if it may be a field's.
#[inline(always)]
fn quick_code_text(code: &Code) -> Quick<'_>
    ensures value { (room : List ℕ) → HasValue result room }
    ensures told { (room : List ℕ) → IsQuick result room (field_text (found_text (Some code.now))) }
{
    let text = code.text.as_slice();
    if is_plain(text) {
        return Quick::Text(text);
    }
    Quick::Other
}

/// Whether a text isn't empty and contains no SOH.
#[inline(always)]
fn is_plain(text: &[u8]) -> bool
    ensures some { result ≡ true → 0 < length text.now }
    ensures plain { result ≡ true → has_soh text.now ≡ false }
{
    if text.len() == 1 {
        return text[0] != SOH;
    }
    is_shown(text)
}

/// The same for any text.
#[inline(never)]
fn is_shown(text: &[u8]) -> bool
    ensures some { result ≡ true → 0 < length text.now }
    ensures plain { result ≡ true → has_soh text.now ≡ false }
{
    match show_text(text) {
        Ok(()) => true,
        Err(_) => false,
    }
}
