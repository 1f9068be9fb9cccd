ghost use Rattle.std.specs.Prelude.{◌≡◌, IfOk, replicate, min};
ghost use Rattle.sbe_types.specs.declared.message.Elem.TheVariants.{Null};
ghost use Rattle.sbe_types.specs.Numbers.{natural};
ghost use Rattle.vectors.specs.Drawing.{times};
ghost use Rattle.vectors.specs.Messages.{amount};
ghost use Rattle.vectors.specs.Values.{element_drawn, element_value, number_drawn, number_in, number_value, octet_drawn, size_of};

use crate::words::draw;
use lists::{List, NoMem};
use rand_pcg::Pcg32;
use sbe_types::{Elem, ElemList, Leaf, Value};
use std::alloc::Global;

/// An optional value is null once in this many draws.
pub(crate) const NULLS: u64 = 4;

/// The most numbers of a range from which one is drawn.
pub(crate) const WORD_LIMIT: u64 = 4_294_967_295;

/// The number of values of a byte.
pub(crate) const BYTE_VALUES: u64 = 256;

/// The largest byte.
pub(crate) const LAST_BYTE: u64 = 255;

/// The byte of the letter `A`.
pub(crate) const FIRST_LETTER: u64 = 65;

/// The number of capital letters.
pub(crate) const LETTERS: u64 = 26;

/// The most bits that a set has.
pub(crate) const SET_BITS: u32 = 64;

/// A group has fewer entries than this, if its type allows it.
pub(crate) const COUNTS: u64 = 3;

/// A data part has fewer bytes than this, if its type allows it.
pub(crate) const DATA_LENGTHS: u64 = 17;

/// The largest minimum of a count or length to which a drawn one is raised.
pub(crate) const RAISED_LIMIT: u64 = 64;

/// A number from `low` to `high`.
pub(crate) fn draw_number(words: &mut Pcg32, low: i128, high: i128) -> i128
    ensures { number_in low high words.old ≡ (result, words.new) }
{
    low + draw(words, choices_in(low, high)) as i128
}

/// The size of the range from which a number between `low` and `high` is drawn.
fn choices_in(low: i128, high: i128) -> u64
    ensures { result ≡ min (size_of low high) WORD_LIMIT }
{
    if high < low {
        return 0;
    }
    let distance = high.abs_diff(low);
    let more = distance.min(u128::from(WORD_LIMIT - 1));
    more as u64 + 1
}

/// The number as a value of the leaf.
fn number_value(leaf: &Leaf, number: i128) -> Value
    ensures { result ≡ number_value leaf.now number }
{
    if leaf.is_null(number) {
        return Value::Null;
    }
    Value::Num(number)
}

/// A number of the leaf.
pub(crate) fn draw_value(words: &mut Pcg32, leaf: &Leaf) -> Value
    ensures { number_drawn leaf.now words.old ≡ (result, words.new) }
{
    let number = draw_number(words, leaf.low, leaf.high);
    number_value(leaf, number)
}

/// The number as an element of the array.
fn element_value(leaf: &Leaf, number: i128) -> Elem
    ensures { result ≡ element_value leaf.now number }
{
    if leaf.is_null(number) {
        return Elem::Null;
    }
    Elem::Num(number)
}

/// One element of an array of numbers.
fn draw_element(words: &mut Pcg32, leaf: &Leaf) -> Elem
    ensures { element_drawn leaf.now words.old ≡ (result, words.new) }
{
    let number = draw_number(words, leaf.low, leaf.high);
    element_value(leaf, number)
}

/// The elements of an array of numbers.
pub(crate) fn draw_elements(
    alloc: Global,
    words: &mut Pcg32,
    leaf: &Leaf,
) -> Result<ElemList, NoMem>
    ensures { IfOk result (λ it. times leaf.now.length (element_drawn leaf.now) words.old ≡ (it, words.new)) }
{
    let mut elements = List::new(alloc);
    for _ in 0..leaf.length {
        elements.push(draw_element(words, leaf))?;
    }
    Ok(elements)
}

/// An octet.
fn draw_octet(words: &mut Pcg32) -> Elem
    ensures { octet_drawn words.old ≡ (result, words.new) }
{
    Elem::Num(draw(words, BYTE_VALUES) as i128)
}

/// `count` octets.
pub(crate) fn draw_octets(alloc: Global, words: &mut Pcg32, count: u32) -> Result<ElemList, NoMem>
    ensures { IfOk result (λ it. times count octet_drawn words.old ≡ (it, words.new)) }
{
    let mut elements = List::new(alloc);
    for _ in 0..count {
        elements.push(draw_octet(words))?;
    }
    Ok(elements)
}

/// `count` elements that are null.
pub(crate) fn null_elements(alloc: Global, count: u32) -> Result<ElemList, NoMem>
    ensures { IfOk result (λ it. it ≡ replicate count Null) }
{
    let mut elements = List::new(alloc);
    for _ in 0..count {
        elements.push(Elem::Null)?;
    }
    Ok(elements)
}

/// The nearest integer from 0 to `most`.
#[tactic(auto, using(std::proofs::lemmas::Int::ints, crate::proofs::Wholes::natural_low, crate::proofs::Wholes::natural_is))]
pub(crate) fn natural_within(number: i128, most: u64) -> u64
    ensures { result ≡ min (natural number) most }
{
    if number < 0 {
        return 0;
    }
    if number >= most as i128 {
        return most;
    }
    number as u64
}

/// A count or a length: lowered to the leaf's greatest number, and raised to its least one if that is at most
/// [`RAISED_LIMIT`].
pub(crate) fn amount(leaf: &Leaf, number: u64) -> u64
    ensures { result ≡ amount leaf.now number }
{
    let lowered = natural_within(leaf.high, number);
    if leaf.low > RAISED_LIMIT as i128 {
        return lowered;
    }
    lowered.max(natural_within(leaf.low, RAISED_LIMIT))
}
