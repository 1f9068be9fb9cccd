// The texts of numbers of one byte, looked up by their byte.
ghost use Rattle.std.specs.Prelude.{◌≡◌, ◌<◌, [], length, take, IfOk, IfSome};
ghost use Rattle.tagvalue_codec.specs.Drafts.{IsValue};
ghost use Rattle.value_texts.specs.Coded.{AreCodes, AreCodesOf, IsByteText, IsCodeFront, IsNumberText};
ghost use Rattle.value_texts.specs.Fronts.{IsFrontText};

use crate::face::{Found, NumberFace};
use crate::fronts::FrontText;
use crate::row::TextRule;
use crate::spelling::Spelling;
use byte_places::place;
use fix_values::Short;
use lists::{List, NoMem};
use std::alloc::Global;
use std::marker::Model;

/// The number of values of a byte.
const BYTES: usize = 256;

/// The most bytes of a text in a table.
const TEXT_BYTES: usize = 8;

/// The text of the number that a byte shows; empty if there is none.
#[derive(Drop)]
pub(crate) struct ByteText {
    bytes: [u8; TEXT_BYTES],
    count: usize,
}

impl Model for ByteText {
    ghost use Rattle.std.specs.Prelude.{◌≡◌, ◌≤◌, ◌<◌, ℕ, List, length, take};
    ghost use Rattle.tagvalue_codec.specs.Drafts.{IsValue};
    ghost use Rattle.value_texts.specs.declared.codes.TheConstants.{TEXT_BYTES};

    ghost Value = { List ℕ };

    ghost view = { λ text. take text.count text.bytes };

    ghost invariant = { λ text. (length text.bytes ≡ TEXT_BYTES) × (text.count ≤ TEXT_BYTES) × (0 < text.count → IsValue (take text.count text.bytes)) };
}

impl ByteText {
    /// No text.
    fn none() -> ByteText
        ensures { result ≡ [] }
    {
        ByteText {
            bytes: [0; TEXT_BYTES],
            count: 0,
        }
    }

    /// The same text, or none if it has more than eight bytes.
    fn new(text: &[u8]) -> ByteText
        requires { IsValue text.now }
        ensures { 0 < length result → result ≡ text.now }
    {
        if text.len() > TEXT_BYTES {
            return ByteText::none();
        }
        let mut bytes = [0; TEXT_BYTES];
        let count = place(&mut bytes, 0, text);
        ByteText { bytes, count }
    }

    /// The text at the front of eight bytes. `None` if there is none.
    #[inline(always)]
    fn front(&self) -> Option<FrontText<'_>>
        ensures value { IfSome result IsFrontText }
        ensures same { IfSome result (λ front. take front.count front.bytes.now ≡ self.now) }
    {
        if self.count == 0 {
            return None;
        }
        Some(FrontText {
            bytes: &self.bytes,
            count: self.count,
        })
    }
}

/// The text of a number of one byte, at the front of eight bytes. `None` if the table has none.
#[inline(always)]
pub(crate) fn code_front<'a>(codes: &'a List<ByteText>, bytes: &[u8]) -> Option<FrontText<'a>>
    ensures { IfSome result (λ front. IsCodeFront front bytes.now codes.now) }
{
    if bytes.len() != 1 {
        return None;
    }
    let at = bytes[0] as usize;
    if at >= codes.len() {
        return None;
    }
    codes.at(at).front()
}

/// For each byte the text of the number that it shows, if it has one of at most eight bytes. Empty for rules without numbers, and for
/// numbers of several bytes.
pub(crate) fn codes_of(
    alloc: Global,
    rule: &TextRule,
    face: &NumberFace,
) -> Result<List<ByteText>, NoMem>
    ensures { IfOk result (λ codes. AreCodes rule.now face.now codes) }
{
    if face.prim.width() != 1 {
        return Ok(List::new(alloc));
    }
    match rule {
        TextRule::Number(spelling) => texts_of_bytes(alloc, spelling, face),
        TextRule::Choices(_) => Ok(List::new(alloc)),
        TextRule::Decimal(_) => Ok(List::new(alloc)),
        TextRule::Floating(_, _) => Ok(List::new(alloc)),
        TextRule::Passage => Ok(List::new(alloc)),
        TextRule::Day => Ok(List::new(alloc)),
        TextRule::Moment(_, _) => Ok(List::new(alloc)),
        TextRule::Month => Ok(List::new(alloc)),
        TextRule::Const(_) => Ok(List::new(alloc)),
    }
}

/// The table of numbers.
fn texts_of_bytes(
    alloc: Global,
    spelling: &Spelling,
    face: &NumberFace,
) -> Result<List<ByteText>, NoMem>
    ensures { IfOk result (λ codes. AreCodesOf spelling.now face.now codes) }
{
    let mut codes = List::new(alloc);
    for byte in 0..BYTES {
        codes.push(text_of_byte(spelling, face, byte as u8))?;
    }
    Ok(codes)
}

/// The text of the number that a byte shows.
fn text_of_byte(spelling: &Spelling, face: &NumberFace, byte: u8) -> ByteText
    ensures { IsByteText spelling.now face.now byte result }
{
    match face.read(&[byte]) {
        Found::Number(n) => number_text(spelling, n),
        Found::Null => ByteText::none(),
        Found::Unknown => ByteText::none(),
    }
}

/// The text of a number, if it has one and it is short.
fn number_text(spelling: &Spelling, n: i64) -> ByteText
    ensures { 0 < length result → IsNumberText spelling.now n result }
{
    let mut text = Short::new();
    match spelling.show(n as i128, &mut text) {
        Ok(()) => ByteText::new(text.bytes()),
        Err(_) => ByteText::none(),
    }
}
