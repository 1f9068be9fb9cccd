ghost use Rattle.std.specs.Prelude.{◌≡◌, IfOk, slice_get};
ghost use Rattle.vectors.specs.Drawing.{each, null_drawn};
ghost use Rattle.vectors.specs.Values.{bits_drawn, choice_drawn, enum_drawn, leaf_drawn, listed_value, may_be_null, member_drawn, null_of, there_drawn, value_drawn, with_bit};

use crate::numbers::{NULLS, SET_BITS, draw_elements, draw_octets, draw_value, null_elements};
use crate::texts::{draw_text, is_optional};
use crate::words::draw;
use lists::{List, NoMem};
use rand_pcg::Pcg32;
use sbe_types::{Kind, Leaf, LeafShape, Member, Named, NamedList, Value};
use std::alloc::Global;

// ---- leaves

/// Draws whether a value is null; only an optional one may be.
fn draw_null(words: &mut Pcg32, optional: bool) -> bool
    ensures { null_drawn optional words.old ≡ (result, words.new) }
{
    if optional {
        return draw(words, NULLS) == 0;
    }
    false
}

/// Whether the leaf may be null.
fn may_be_null(leaf: &Leaf) -> bool
    ensures { result ≡ may_be_null leaf.now }
{
    match leaf.shape {
        LeafShape::Octets => false,
        LeafShape::Number | LeafShape::RangedText | LeafShape::EncodedText | LeafShape::Numbers =>
            is_optional(leaf.presence),
    }
}

/// The value of a null leaf.
fn null_leaf(alloc: Global, leaf: &Leaf) -> Result<Value, NoMem>
    ensures { IfOk result (λ it. it ≡ null_of leaf.now.shape leaf.now) }
{
    match leaf.shape {
        LeafShape::Number | LeafShape::RangedText | LeafShape::EncodedText => Ok(Value::Null),
        LeafShape::Octets | LeafShape::Numbers => {
            Ok(Value::Nums(null_elements(alloc, leaf.length)?))
        }
    }
}

/// A value of a leaf, after no null was drawn.
fn draw_there(alloc: Global, words: &mut Pcg32, leaf: &Leaf) -> Result<Value, NoMem>
    ensures { IfOk result (λ it. there_drawn leaf.now.shape leaf.now words.old ≡ (it, words.new)) }
{
    match leaf.shape {
        LeafShape::Number => Ok(draw_value(words, leaf)),
        LeafShape::RangedText | LeafShape::EncodedText => draw_text(alloc, words, leaf),
        LeafShape::Octets => Ok(Value::Nums(draw_octets(alloc, words, leaf.length)?)),
        LeafShape::Numbers => Ok(Value::Nums(draw_elements(alloc, words, leaf)?)),
    }
}

/// A value of a leaf.
fn draw_leaf(alloc: Global, words: &mut Pcg32, leaf: &Leaf) -> Result<Value, NoMem>
    ensures { IfOk result (λ it. leaf_drawn leaf.now words.old ≡ (it, words.new)) }
{
    if draw_null(words, may_be_null(leaf)) {
        return null_leaf(alloc, leaf);
    }
    draw_there(alloc, words, leaf)
}

// ---- enums and sets

/// A valid value, or null if its number is the null.
fn listed_value(leaf: &Leaf, values: &NamedList, place: u64) -> Value
    ensures { result ≡ listed_value leaf.now (slice_get values.now place) }
{
    if place >= values.len() as u64 {
        return Value::Null;
    }
    let number = values.at(place as usize).number;
    if leaf.is_null(number) {
        return Value::Null;
    }
    Value::Enum(number)
}

/// One of the valid values of an enum.
fn draw_choice(words: &mut Pcg32, leaf: &Leaf, values: &NamedList) -> Value
    ensures { choice_drawn leaf.now values.now words.old ≡ (result, words.new) }
{
    let place = draw(words, values.len() as u64);
    listed_value(leaf, values, place)
}

/// A value of an enum.
fn draw_enum(words: &mut Pcg32, leaf: &Leaf, values: &NamedList) -> Value
    ensures { enum_drawn leaf.now values.now words.old ≡ (result, words.new) }
{
    if draw_null(words, is_optional(leaf.presence)) {
        return Value::Null;
    }
    draw_choice(words, leaf, values)
}

/// The bits with that of a choice added, if it was drawn.
fn with_bit(bits: u64, choice: &Named, drawn: u64) -> u64
    ensures { result ≡ with_bit bits choice.now.number drawn }
{
    let number = choice.number;
    if drawn != 1 || number < 0 || number >= SET_BITS as i128 {
        return bits;
    }
    bits | (1 << number as u32)
}

/// The bits that were drawn from a set's choices.
fn draw_bits(words: &mut Pcg32, choices: &NamedList) -> u64
    ensures { bits_drawn 0 choices.now words.old ≡ (result, words.new) }
{
    let mut bits = 0;
    for choice in choices.as_slice() {
        let drawn = draw(words, 2);
        bits = with_bit(bits, choice, drawn);
    }
    bits
}

// ---- kinds

/// A value of a field or a member.
#[cycle(kind)]
pub(crate) fn draw_kind(alloc: Global, words: &mut Pcg32, kind: &Kind) -> Result<Value, NoMem>
    ensures { IfOk result (λ it. value_drawn kind.now words.old ≡ (it, words.new)) }
{
    match kind {
        Kind::Leaf(leaf) => draw_leaf(alloc, words, leaf),
        Kind::Enum(leaf, values) => Ok(draw_enum(words, leaf, values)),
        Kind::Set(_, choices) => Ok(Value::Set(draw_bits(words, choices))),
        Kind::Comp(members) => Ok(Value::Comp(draw_members(alloc, words, members)?)),
        Kind::Const(_) => Ok(Value::Const),
    }
}

/// The values of a composite's members.
#[cycle(kind)]
fn draw_members(
    alloc: Global,
    words: &mut Pcg32,
    members: &List<Member>,
) -> Result<List<Value>, NoMem>
    ensures { IfOk result (λ it. each member_drawn members.now words.old ≡ (it, words.new)) }
{
    let mut values = List::new(alloc);
    for member in members.as_slice() {
        values.push(draw_kind(alloc, words, &member.kind)?)?;
    }
    Ok(values)
}
