ghost use Rattle.std.specs.Prelude.{◌≡◌, ◌<◌, IfSome};
ghost use Rattle.json_data.specs.Trees.{data_of, items_of};
ghost use Rattle.line_values.specs.Refusals.{Gives};
ghost use Rattle.line_values.specs.Values.{number_named, valid_in, enum_in, bit_named, with_bit, choice_in, choices_in, set_in, fixed, is_number, is_code, fixed_text, constant_in};

use crate::leaves::{integer_of, read_integer, read_null};
use crate::refusals::{JCode, LineFault, refuse};
use crate::texts::read_bytes;
use json_data::Json;
use named_numbers::bit_of;
use sbe_types::{ConstValue, Leaf, Named, Value};
use std::alloc::Global;

/// The number of the first valid value with this name.
#[tactic(auto, using(crate::proofs::ChoiceSteps::number_next))]
fn number_named(names: &[Named], name: &[u8]) -> Option<i128>
    ensures { result ≡ number_named names.now name.now }
{
    for value in names {
        if value.name.as_slice() == name {
            return Some(value.number);
        }
    }
    None
}

/// A valid value, by its name.
fn read_valid(alloc: Global, names: &[Named], name: &[u8]) -> Result<Value, LineFault>
    ensures { Gives result (valid_in names.now name.now) }
{
    match number_named(names, name) {
        None => refuse(alloc, JCode::UnknownName, b""),
        Some(number) => Ok(Value::Enum(number)),
    }
}

/// An enum: a valid value by its name, or any integer.
pub fn read_enum(
    alloc: Global,
    leaf: &Leaf,
    names: &[Named],
    found: &Json<'_>,
) -> Result<Value, LineFault>
    ensures { Gives result (enum_in leaf.now names.now (data_of found.now)) }
{
    match found {
        Json::Null => read_null(alloc, leaf),
        Json::Number(number) => Ok(Value::Enum(read_integer(alloc, number)?)),
        Json::String(text) => read_valid(alloc, names, text.as_bytes()),
        _ => refuse(alloc, JCode::Kind, b""),
    }
}

/// The bit of the first choice with this name.
#[tactic(auto, using(crate::proofs::ChoiceSteps::bit_next))]
fn bit_named(names: &[Named], name: &[u8]) -> Option<u32>
    ensures value { result ≡ bit_named names.now name.now }
    ensures small { IfSome result (λ place. place < 64) }
{
    for choice in names {
        if choice.name.as_slice() == name {
            return bit_of(&choice.number);
        }
    }
    None
}

/// The bits with one more, which must not be set yet.
#[tactic(auto, using(crate::proofs::ChoiceSteps::bit_added))]
fn with_bit(alloc: Global, bits: u64, place: u32) -> Result<u64, LineFault>
    requires { place < 64 }
    ensures { Gives result (with_bit bits place) }
{
    if (bits >> place) & 1 == 0 {
        return Ok(bits | (1 << place));
    }
    refuse(alloc, JCode::Kind, b"")
}

/// The bits with that of a choice added, by its name.
fn read_choice(
    alloc: Global,
    names: &[Named],
    bits: u64,
    found: &Json<'_>,
) -> Result<u64, LineFault>
    ensures { Gives result (choice_in names.now bits (data_of found.now)) }
{
    match found.as_str() {
        None => refuse(alloc, JCode::Kind, b""),
        Some(name) => match bit_named(names, name.as_bytes()) {
            None => refuse(alloc, JCode::UnknownName, b""),
            Some(place) => with_bit(alloc, bits, place),
        },
    }
}

/// The bits of choices, by their names.
#[tactic(auto, unfolding(crate::specs::Values::choices_in), using(crate::proofs::ChoiceSteps::choices_more))]
fn read_choices(alloc: Global, names: &[Named], items: &[Json<'_>]) -> Result<u64, LineFault>
    ensures { Gives result (choices_in names.now 0 (items_of items.now)) }
{
    let mut bits = 0;
    for item in items {
        bits = read_choice(alloc, names, bits, item)?;
    }
    Ok(bits)
}

/// A set: its choices by their names, or its bits as a number.
pub fn read_set(alloc: Global, names: &[Named], found: &Json<'_>) -> Result<Value, LineFault>
    ensures { Gives result (set_in names.now (data_of found.now)) }
{
    match found {
        Json::Array(items) => Ok(Value::Set(read_choices(alloc, names, items)?)),
        Json::Number(number) => match number.as_u64() {
            None => refuse(alloc, JCode::Kind, b""),
            Some(bits) => Ok(Value::Set(bits)),
        },
        _ => refuse(alloc, JCode::Kind, b""),
    }
}

/// A constant, if what was found is its value.
fn fixed(alloc: Global, same: bool) -> Result<Value, LineFault>
    ensures { Gives result (fixed same) }
{
    if same {
        return Ok(Value::Const);
    }
    refuse(alloc, JCode::Kind, b"")
}

/// Whether the integer is this number.
fn is_number(number: &i128, found: Option<i128>) -> bool
    ensures { result ≡ is_number number.now found }
{
    match found {
        None => false,
        Some(n) => n == *number,
    }
}

/// Whether it is a valid value, by its name or its number.
fn is_code(value: &Named, found: &Json<'_>) -> bool
    ensures { result ≡ is_code value.now (data_of found.now) }
{
    match found {
        Json::String(text) => text.as_bytes() == value.name.as_slice(),
        Json::Number(number) => is_number(&value.number, number.as_i128()),
        _ => false,
    }
}

/// Reads a constant that is a text.
fn read_fixed_text(alloc: Global, bytes: &[u8], found: &Json<'_>) -> Result<Value, LineFault>
    ensures { Gives result (fixed_text bytes.now (data_of found.now)) }
{
    let told = read_bytes(alloc, found)?;
    fixed(alloc, told.as_slice() == bytes)
}

/// Reads a constant, which may be given as its value.
pub fn read_constant(
    alloc: Global,
    constant: &ConstValue,
    found: &Json<'_>,
) -> Result<Value, LineFault>
    ensures { Gives result (constant_in constant.now (data_of found.now)) }
{
    match constant {
        ConstValue::Num(number) => fixed(alloc, is_number(number, integer_of(found))),
        ConstValue::Text(bytes) => read_fixed_text(alloc, bytes.as_slice(), found),
        ConstValue::Code(_, value) => fixed(alloc, is_code(value, found)),
    }
}
