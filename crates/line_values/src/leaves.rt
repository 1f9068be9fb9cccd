ghost use Rattle.std.specs.Prelude.{◌≡◌, [], replicate, IfOk};
ghost use Rattle.json_data.specs.Trees.{data_of, items_of, num_of};
ghost use Rattle.serde_json.specs.Find.{as_integer};
ghost use Rattle.sbe_types.specs.declared.message.Elem.TheVariants as elem;
ghost use Rattle.sbe_types.specs.Shown.{is_optional as optional};
ghost use Rattle.line_values.specs.declared.refusals.JCode.TheVariants as code;
ghost use Rattle.line_values.specs.Refusals.{Gives, or_refuse};
ghost use Rattle.line_values.specs.Objects.{each, integer_of};
ghost use Rattle.line_values.specs.Values.{null_in, is_character, char_in, number_in, text_in, element_in, elements_of, array_in, shape_in, value_if_missing, array_lack, leaf_lack};

use crate::objects::at_item;
use crate::refusals::{JCode, LineFault, refuse};
use crate::texts::read_bytes;
use json_data::{Json, Number};
use lists::{List, NoMem};
use sbe_types::{Elem, ElemList, Leaf, LeafShape, Presence, Prim, Value};
use std::alloc::Global;

fn is_optional(presence: Presence) -> bool
    ensures { result ≡ optional presence }
{
    match presence {
        Presence::Optional => true,
        Presence::Required | Presence::Constant => false,
    }
}

/// Reads a JSON null, if the leaf may be null.
pub fn read_null(alloc: Global, leaf: &Leaf) -> Result<Value, LineFault>
    ensures { Gives result (null_in (optional leaf.now.presence)) }
{
    if is_optional(leaf.presence) {
        return Ok(Value::Null);
    }
    refuse(alloc, JCode::Kind, b"")
}

/// The number of a JSON integer.
pub fn read_integer(alloc: Global, number: &Number) -> Result<i128, LineFault>
    ensures { Gives result (or_refuse code.Kind [] (as_integer (num_of number.now))) }
{
    match number.as_i128() {
        None => refuse(alloc, JCode::Kind, b""),
        Some(n) => Ok(n),
    }
}

/// The number of a value that is a JSON integer.
pub fn integer_of(found: &Json<'_>) -> Option<i128>
    ensures { result ≡ integer_of (data_of found.now) }
{
    found.as_i128()
}

fn is_character(prim: Prim) -> bool
    ensures { result ≡ is_character prim }
{
    match prim {
        Prim::Char => true,
        Prim::I8 | Prim::I16 | Prim::I32 | Prim::I64 => false,
        Prim::U8 | Prim::U16 | Prim::U32 | Prim::U64 => false,
    }
}

/// Reads a char from a string of one byte.
fn read_char(alloc: Global, prim: Prim, text: &[u8]) -> Result<Value, LineFault>
    ensures { Gives result (char_in prim text.now) }
{
    if is_character(prim) && text.len() == 1 {
        return Ok(Value::Num(text[0] as i128));
    }
    refuse(alloc, JCode::Kind, b"")
}

/// Reads a single number.
fn read_number(alloc: Global, leaf: &Leaf, found: &Json<'_>) -> Result<Value, LineFault>
    ensures { Gives result (number_in leaf.now (data_of found.now)) }
{
    match found {
        Json::Null => read_null(alloc, leaf),
        Json::Number(number) => Ok(Value::Num(read_integer(alloc, number)?)),
        Json::String(text) => read_char(alloc, leaf.prim, text.as_bytes()),
        _ => refuse(alloc, JCode::Kind, b""),
    }
}

/// Reads a text.
fn read_text(alloc: Global, leaf: &Leaf, found: &Json<'_>) -> Result<Value, LineFault>
    ensures { Gives result (text_in leaf.now (data_of found.now)) }
{
    match found {
        Json::Null => read_null(alloc, leaf),
        _ => Ok(Value::Text(read_bytes(alloc, found)?)),
    }
}

/// Reads an element of an array. `nulls` says whether nulls are allowed.
fn read_element(alloc: Global, nulls: bool, found: &Json<'_>) -> Result<Elem, LineFault>
    ensures { Gives result (element_in nulls (data_of found.now)) }
{
    match found {
        Json::Null => {
            if nulls {
                return Ok(Elem::Null);
            }
            refuse(alloc, JCode::Kind, b"")
        }
        Json::Number(number) => Ok(Elem::Num(read_integer(alloc, number)?)),
        _ => refuse(alloc, JCode::Kind, b""),
    }
}

/// Reads the elements of an array.
#[tactic(auto, unfolding(crate::specs::Objects::each), using(crate::proofs::ItemSteps::elements_more))]
fn read_elements(alloc: Global, nulls: bool, items: &[Json<'_>]) -> Result<ElemList, LineFault>
    ensures { Gives result (each (element_in nulls) 0 (items_of items.now)) }
{
    let mut out = List::new(alloc);
    for (i, item) in items.iter().enumerate() {
        out.push(at_item(alloc, i, read_element(alloc, nulls, item))?)?;
    }
    Ok(out)
}

/// Reads the elements of an array, as a value.
fn read_numbers(alloc: Global, nulls: bool, items: &[Json<'_>]) -> Result<Value, LineFault>
    ensures { Gives result (elements_of nulls (items_of items.now)) }
{
    let elements = read_elements(alloc, nulls, items)?;
    Ok(Value::Nums(elements))
}

/// Reads an array.
fn read_array(alloc: Global, nulls: bool, found: &Json<'_>) -> Result<Value, LineFault>
    ensures { Gives result (array_in nulls (data_of found.now)) }
{
    match found.as_array() {
        None => refuse(alloc, JCode::Kind, b""),
        Some(items) => read_numbers(alloc, nulls, items),
    }
}

/// Reads a number, a text or an array.
pub fn read_leaf(alloc: Global, leaf: &Leaf, found: &Json<'_>) -> Result<Value, LineFault>
    ensures { Gives result (shape_in leaf.now.shape leaf.now (data_of found.now)) }
{
    match leaf.shape {
        LeafShape::Number => read_number(alloc, leaf, found),
        LeafShape::RangedText | LeafShape::EncodedText => read_text(alloc, leaf, found),
        LeafShape::Octets => read_array(alloc, false, found),
        LeafShape::Numbers => read_array(alloc, true, found),
    }
}

/// `length` nulls.
fn nulls(alloc: Global, length: u32) -> Result<ElemList, NoMem>
    ensures { IfOk result (λ elements. elements ≡ replicate length elem.Null) }
{
    let mut out = List::new(alloc);
    for _ in 0..length {
        out.push(Elem::Null)?;
    }
    Ok(out)
}

/// The value for a missing leaf or enum, if it may be null.
pub fn value_if_missing(alloc: Global, leaf: &Leaf, value: Value) -> Result<Value, LineFault>
    ensures { Gives result (value_if_missing leaf.now value) }
{
    if is_optional(leaf.presence) {
        return Ok(value);
    }
    refuse(alloc, JCode::Shape, b"")
}

/// The value for a missing array that allows nulls.
fn lack_array(alloc: Global, leaf: &Leaf) -> Result<Value, LineFault>
    ensures { Gives result (array_lack leaf.now) }
{
    if !is_optional(leaf.presence) {
        return refuse(alloc, JCode::Shape, b"");
    }
    Ok(Value::Nums(nulls(alloc, leaf.length)?))
}

/// The value for a missing leaf: null, or an array of nulls. Octets must not be missing.
pub fn leaf_if_missing(alloc: Global, leaf: &Leaf) -> Result<Value, LineFault>
    ensures { Gives result (leaf_lack leaf.now.shape leaf.now) }
{
    match leaf.shape {
        LeafShape::Number | LeafShape::RangedText | LeafShape::EncodedText => {
            value_if_missing(alloc, leaf, Value::Null)
        }
        LeafShape::Octets => refuse(alloc, JCode::Shape, b""),
        LeafShape::Numbers => lack_array(alloc, leaf),
    }
}
