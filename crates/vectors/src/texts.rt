ghost use Rattle.std.specs.Prelude.{◌≡◌, ◌+◌, IfOk, if◌then◌else◌};
ghost use Rattle.sbe_types.specs.Shown.{is_optional};
ghost use Rattle.sbe_types.specs.Shows.{is_ranged, text_value};
ghost use Rattle.vectors.specs.Drawing.{times};
ghost use Rattle.vectors.specs.Values.{byte_count, byte_of, has_bytes, least_byte, text_byte_drawn, text_drawn, text_length_drawn};

use crate::numbers::{FIRST_LETTER, LAST_BYTE, LETTERS, draw_number, natural_within};
use crate::words::draw;
use lists::{Bytes, List, NoMem};
use rand_pcg::Pcg32;
use sbe_types::{Leaf, LeafShape, Presence, Value};
use std::alloc::Global;

/// Whether a leaf with this presence may be null.
pub(crate) fn is_optional(presence: Presence) -> bool
    ensures { result ≡ is_optional presence }
{
    match presence {
        Presence::Optional => true,
        Presence::Required | Presence::Constant => false,
    }
}

/// Whether the bytes of a text are limited to a range.
fn is_ranged(shape: LeafShape) -> bool
    ensures { result ≡ is_ranged shape }
{
    match shape {
        LeafShape::RangedText => true,
        LeafShape::Number | LeafShape::EncodedText | LeafShape::Octets | LeafShape::Numbers => {
            false
        }
    }
}

/// The least byte of a text.
fn least_byte(leaf: &Leaf) -> i128
    ensures { result ≡ least_byte leaf.now }
{
    if leaf.admits(0) {
        return 1;
    }
    leaf.low
}

/// Whether some byte is allowed in a text.
fn has_bytes(leaf: &Leaf) -> bool
    ensures { result ≡ has_bytes leaf.now }
{
    !is_ranged(leaf.shape) || least_byte(leaf) <= leaf.high
}

/// The byte nearest to the number.
fn byte_of(number: i128) -> u8
    ensures { result ≡ byte_of number }
{
    natural_within(number, LAST_BYTE) as u8
}

/// A byte of a text.
fn draw_byte(words: &mut Pcg32, leaf: &Leaf) -> u8
    ensures { text_byte_drawn leaf.now words.old ≡ (result, words.new) }
{
    if is_ranged(leaf.shape) {
        return byte_of(draw_number(words, least_byte(leaf), leaf.high));
    }
    (FIRST_LETTER + draw(words, LETTERS)) as u8
}

/// The length of a text in bytes.
fn draw_length(words: &mut Pcg32, leaf: &Leaf) -> u64
    ensures { text_length_drawn leaf.now words.old ≡ (result, words.new) }
{
    let most = u64::from(leaf.length);
    if is_optional(leaf.presence) {
        return draw(words, most) + 1;
    }
    draw(words, most + 1)
}

/// `count` bytes of a text.
fn draw_bytes(alloc: Global, words: &mut Pcg32, leaf: &Leaf, count: u64) -> Result<Bytes, NoMem>
    ensures { IfOk result (λ it. times count (text_byte_drawn leaf.now) words.old ≡ (it, words.new)) }
{
    let mut bytes = List::new(alloc);
    for _ in 0..count {
        bytes.push(draw_byte(words, leaf))?;
    }
    Ok(bytes)
}

/// The bytes as a value: null if there are none and the leaf is optional.
fn text_value(leaf: &Leaf, bytes: Bytes) -> Value
    ensures { result ≡ text_value leaf.now bytes }
{
    if is_optional(leaf.presence) && bytes.is_empty() {
        return Value::Null;
    }
    Value::Text(bytes)
}

/// The number of bytes in a text of this length: none if no byte is allowed.
fn byte_count(leaf: &Leaf, length: u64) -> u64
    ensures { result ≡ byte_count leaf.now length }
{
    if has_bytes(leaf) {
        return length;
    }
    0
}

/// A text.
pub(crate) fn draw_text(alloc: Global, words: &mut Pcg32, leaf: &Leaf) -> Result<Value, NoMem>
    ensures { IfOk result (λ it. text_drawn leaf.now words.old ≡ (it, words.new)) }
{
    let length = draw_length(words, leaf);
    let bytes = draw_bytes(alloc, words, leaf, byte_count(leaf, length))?;
    Ok(text_value(leaf, bytes))
}
