// The texts of values by their bytes at a fixed place, without the general rules.
ghost use Rattle.std.specs.Prelude.{◌≡◌, length, take, Ok, Some, IfSome};
ghost use Rattle.sbe_types.specs.declared.message.Value.{Value};
ghost use Rattle.value_texts.specs.declared.face.NumberFace.{NumberFace as AnyFace};
ghost use Rattle.value_texts.specs.declared.row.TextRule.TheVariants as rows;
ghost use Rattle.value_texts.specs.Coded.{AreCodes, AreCodesOf};
ghost use Rattle.value_texts.specs.Fronts.{IsFrontText};
ghost use Rattle.value_texts.specs.Quick.{HasValue, IsQuick};
ghost use Rattle.value_texts.specs.Rows.{row_text, Reads};

use crate::codes::{ByteText, code_front};
use crate::face::{Found, NumberFace};
use crate::fronts::{FrontText, plain_front};
use crate::quick::{Quick, quick_decimal};
use crate::row::{TextRule, ValueText};
use crate::small::SMALL_ROOM;
use crate::spelling::Spelling;
use lists::List;

/// The text of most texts and codes, at the front of eight bytes. `None` is inconclusive.
#[inline(always)]
pub(crate) fn front_of_value<'a>(row: &'a ValueText, bytes: &'a [u8]) -> Option<FrontText<'a>>
    ensures value { IfSome result IsFrontText }
    ensures told { IfSome result (λ front. (v : Value) → Reads row.now.rule row.now.face v bytes.now → AreCodes row.now.rule row.now.face row.now.codes
        → row_text row.now.rule v ≡ Ok (Some (take front.count front.bytes.now))) }
{
    match &row.rule {
        TextRule::Number(rule) => front_of_code(rule, &row.face, &row.codes, bytes),
        TextRule::Passage => front_of_passage(bytes),
        TextRule::Choices(_) => None,
        TextRule::Decimal(_) => None,
        TextRule::Floating(_, _) => None,
        TextRule::Day => None,
        TextRule::Moment(_, _) => None,
        TextRule::Month => None,
        TextRule::Const(_) => None,
    }
}

/// The text of a number of one byte.
#[inline(always)]
fn front_of_code<'a>(
    rule: &Spelling,
    face: &NumberFace,
    codes: &'a List<ByteText>,
    bytes: &[u8],
) -> Option<FrontText<'a>>
    ensures value { IfSome result IsFrontText }
    ensures told { IfSome result (λ front. (v : Value) → Reads (rows.Number rule.now) face.now v bytes.now → AreCodesOf rule.now face.now codes.now
        → row_text (rows.Number rule.now) v ≡ Ok (Some (take front.count front.bytes.now))) }
{
    code_front(codes, bytes)
}

/// The text of eight bytes.
#[inline(always)]
fn front_of_passage(bytes: &[u8]) -> Option<FrontText<'_>>
    ensures value { IfSome result IsFrontText }
    ensures told { IfSome result (λ front. (face : AnyFace) (v : Value) → Reads rows.Passage face v bytes.now
        → row_text rows.Passage v ≡ Ok (Some (take front.count front.bytes.now))) }
{
    let count = plain_front(bytes);
    if count == 0 {
        return None;
    }
    Some(FrontText { bytes, count })
}

/// The text of most numbers and decimals.
#[inline(always)]
pub(crate) fn text_of_bytes<'a>(
    row: &'a ValueText,
    bytes: &[u8],
    room: &mut [u8; SMALL_ROOM],
) -> Quick<'a>
    requires { length room.old ≡ SMALL_ROOM }
    ensures long { length room.new ≡ SMALL_ROOM }
    ensures value { HasValue result room.new }
    ensures told { (v : Value) → Reads row.now.rule row.now.face v bytes.now → IsQuick result room.new (row_text row.now.rule v) }
{
    match &row.rule {
        TextRule::Number(rule) => number_of_bytes(rule, &row.face, bytes, room),
        TextRule::Decimal(exponent) => decimal_of_bytes(*exponent, &row.face, bytes, room),
        TextRule::Choices(_) => Quick::Other,
        TextRule::Floating(_, _) => Quick::Other,
        TextRule::Passage => Quick::Other,
        TextRule::Day => Quick::Other,
        TextRule::Moment(_, _) => Quick::Other,
        TextRule::Month => Quick::Other,
        TextRule::Const(_) => Quick::Other,
    }
}

/// The text of a number.
#[inline(always)]
fn number_of_bytes<'a>(
    rule: &'a Spelling,
    face: &NumberFace,
    bytes: &[u8],
    room: &mut [u8; SMALL_ROOM],
) -> Quick<'a>
    requires { length room.old ≡ SMALL_ROOM }
    ensures long { length room.new ≡ SMALL_ROOM }
    ensures value { HasValue result room.new }
    ensures told { (v : Value) → Reads (rows.Number rule.now) face.now v bytes.now → IsQuick result room.new (row_text (rows.Number rule.now) v) }
{
    match face.read(bytes) {
        Found::Number(n) => rule.quick(n as i128, room),
        Found::Null => Quick::Nothing,
        Found::Unknown => Quick::Other,
    }
}

/// The text of a decimal with this exponent.
#[inline(always)]
fn decimal_of_bytes<'a>(
    exponent: i128,
    face: &NumberFace,
    bytes: &[u8],
    room: &mut [u8; SMALL_ROOM],
) -> Quick<'a>
    requires { length room.old ≡ SMALL_ROOM }
    ensures long { length room.new ≡ SMALL_ROOM }
    ensures value { HasValue result room.new }
    ensures told { (v : Value) → Reads (rows.Decimal exponent) face.now v bytes.now → IsQuick result room.new (row_text (rows.Decimal exponent) v) }
{
    match face.read(bytes) {
        Found::Number(n) => quick_decimal(n as i128, exponent, room),
        Found::Null => Quick::Nothing,
        Found::Unknown => Quick::Other,
    }
}
