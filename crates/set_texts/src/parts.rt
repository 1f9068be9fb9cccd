// The texts of the codes of a few bits.
ghost use Rattle.std.specs.Prelude.{◌≡◌, ◌∷◌, ◌++◌, [], ◌<◌, ◌≤◌, ◌+◌, List, false, is_some, length, IfSome, pos, true};
ghost use Rattle.std.specs.Bool.{OnTrue};
ghost use Rattle.fix_values.specs.declared.rule.Code.{Code as AnyCode};
ghost use Rattle.fix_values.specs.Codes.{bits_of, codes_in, has_soh};
ghost use Rattle.byte_places.specs.Places.{IsPlaced};
ghost use Rattle.set_texts.specs.Parts.{spaced, IsPart};

use byte_places::{place, place_within};
use fix_values::{Code, ROOM, Short};
use std::marker::Model;

/// How many bits a number has.
const BITS: u32 = 64;

/// How many bytes a part's text has at most: four codes of one byte, a space before each.
pub(crate) const PART_BYTES: usize = 8;

/// The byte that ends a field (FIX tag-value encoding).
const SOH: u8 = 1;

/// The texts of the codes of some bits, a space before each, and the number that the bits make up.
#[derive(Drop)]
pub(crate) struct PartText {
    bytes: [u8; PART_BYTES],
    /// How many of the bytes the texts have.
    count: usize,
    shown: u64,
}

impl Model for PartText {
    ghost use Rattle.std.specs.Prelude.{◌≡◌, ◌≤◌, length, take};
    ghost use Rattle.set_texts.specs.declared.parts.TheConstants.{PART_BYTES};
    ghost use Rattle.set_texts.specs.Parts.{Part};

    ghost Value = { Part };

    ghost view = { λ part. record { text = take part.count part.bytes; shown = part.shown } };

    ghost invariant = { λ part. (length part.bytes ≡ PART_BYTES) × (part.count ≤ PART_BYTES) };
}

impl PartText {
    /// Writes the texts at an offset of the room, and returns where they end. Eight bytes are copied.
    #[inline(always)]
    pub(crate) fn put(&self, room: &mut [u8], at: usize) -> usize
        requires { at + PART_BYTES ≤ length room.old }
        ensures placed { IsPlaced room.old room.new at self.now.text result }
        ensures within { result ≤ at + PART_BYTES }
    {
        place_within::<PART_BYTES>(room, at, &self.bytes, self.count)
    }

    /// The number that the codes' bits make up.
    #[inline(always)]
    pub(crate) fn shown(&self) -> u64
        ensures { result ≡ self.now.shown }
    {
        self.shown
    }
}

/// The texts of those of the codes whose bits a number has. `None` if they have more than eight bytes, or one of them isn't a
/// single byte other than SOH.
pub(crate) fn part_text(codes: &[Code], bits: u64) -> Option<PartText>
    ensures { IfSome result (λ part. IsPart part (codes_in codes.now bits)) }
{
    let mut text = Short::new();
    let mut shown = 0u64;
    for code in codes {
        let bit = put_choice(code, bits, &mut text)?;
        shown = shown.checked_add(bit)?;
    }
    kept(&text, shown)
}

/// Writes a space and the code if its bit is one of these, and returns that bit, or 0.
fn put_choice(code: &Code, bits: u64, out: &mut Short) -> Option<u64>
    ensures text { OnTrue (is_some result) (out.new ≡ out.old ++ spaced (codes_in (code.now ∷ []) bits)) }
    ensures plain { is_some result ≡ true → has_soh out.old ≡ false → has_soh out.new ≡ false }
    ensures sum { IfSome result (λ bit. bit ≡ bits_of (codes_in (code.now ∷ []) bits)) }
{
    let place = place_of(code.number)?;
    if (bits >> place) % 2 == 0 {
        return Some(0);
    }
    if put_spaced(code.text.as_slice(), out) {
        return Some(1 << place);
    }
    None
}

/// The place of a code's bit, if it is one of 64.
pub(crate) fn place_of(number: i128) -> Option<u32>
    ensures same { IfSome result (λ place. number ≡ pos place) }
    ensures few { IfSome result (λ place. place < BITS) }
{
    match u32::try_from(number) {
        Ok(place) if place < BITS => Some(place),
        _ => None,
    }
}

/// Writes a space and the text of a code, if the text is a byte other than SOH and there is room.
fn put_spaced(text: &[u8], out: &mut Short) -> bool
    ensures text { result ≡ true → out.new ≡ out.old ++ 32 ∷ text.now }
    ensures plain { result ≡ true → has_soh out.old ≡ false → has_soh out.new ≡ false }
{
    let [byte] = text else {
        return false;
    };
    if *byte == SOH || out.len() > ROOM - 2 {
        return false;
    }
    out.push(b' ');
    out.push(*byte);
    true
}

/// A part with this text, if it is short.
fn kept(text: &Short, shown: u64) -> Option<PartText>
    ensures { IfSome result (λ part. (codes : List AnyCode) → text.now ≡ spaced codes → has_soh text.now ≡ false → shown ≡ bits_of codes → IsPart part codes) }
{
    if text.len() > PART_BYTES {
        return None;
    }
    let mut bytes = [0; PART_BYTES];
    let count = place(&mut bytes, 0, text.bytes());
    Some(PartText {
        bytes,
        count,
        shown,
    })
}
