ghost use Rattle.std.specs.Prelude.{◌≡◌};
ghost use Rattle.std.specs.List.{list_all};
ghost use Rattle.json_data.specs.Trees.{data_of};
ghost use Rattle.json_elements.specs.Reading.{Gives};
ghost use Rattle.sbe_schema.specs.Forms.{is_letter, is_name_byte, is_name, is_short, a_name, value_ref_in, both_names, a_value_ref, primitive_in, a_primitive, presence_in, a_presence, byte_order_in, a_byte_order, a_length, a_place};

use json_data::Json;
use json_elements::{Cause, ElementErr, Form, read_limited, refuse, str_of};
use lists::{List, Text};
use sbe_types::{
    LENGTH_LIMIT, NAME_LIMIT, Order, PLACE_LIMIT, Presence, Prim, PrimitiveType, ValueRef,
};
use std::alloc::Global;

/// A name: a letter or `_`, then letters, digits and `_`, at most 64 bytes.
pub enum Name {}

impl Form for Name {
    type Out = Text;

    ghost form = { a_name };

    fn read(alloc: Global, value: &Json<'_>) -> Result<Text, ElementErr> {
        let name = str_of(alloc, value)?.as_bytes();
        if !has_name_form(name) {
            return refuse(alloc, Cause::BadAttribute);
        }
        if name.len() > NAME_LIMIT {
            return refuse(alloc, Cause::Limit);
        }
        Ok(List::from_slice(alloc, name)?)
    }
}

fn has_name_form(name: &[u8]) -> bool
    ensures { result ≡ is_name name.now }
{
    !name.is_empty() && is_letter(name[0]) && all_in_names(name)
}

fn all_in_names(bytes: &[u8]) -> bool
    ensures { result ≡ list_all is_name_byte bytes.now }
{
    bytes.iter().all(|byte| is_name_byte(*byte))
}

fn is_name_byte(byte: u8) -> bool
    ensures { result ≡ is_name_byte byte }
{
    is_letter(byte) || matches!(byte, b'0'..=b'9')
}

fn is_letter(byte: u8) -> bool
    ensures { result ≡ is_letter byte }
{
    matches!(byte, b'A'..=b'Z' | b'a'..=b'z' | b'_')
}

/// The name of an enum, a dot, and the name of one of its valid values.
pub enum DottedName {}

impl Form for DottedName {
    type Out = ValueRef;

    ghost form = { a_value_ref };

    fn read(alloc: Global, value: &Json<'_>) -> Result<ValueRef, ElementErr> {
        let text = str_of(alloc, value)?;
        dotted(alloc, text)
    }
}

fn dotted(alloc: Global, text: &str) -> Result<ValueRef, ElementErr>
    ensures { Gives result (value_ref_in text.now) }
{
    match text.split_once('.') {
        Some((enum_name, value_name)) => {
            read_names(alloc, enum_name.as_bytes(), value_name.as_bytes())
        }
        None => refuse(alloc, Cause::BadAttribute),
    }
}

fn read_names(alloc: Global, enum_name: &[u8], value_name: &[u8]) -> Result<ValueRef, ElementErr>
    ensures { Gives result (both_names enum_name.now value_name.now) }
{
    if !has_name_form(enum_name) || !has_name_form(value_name) {
        return refuse(alloc, Cause::BadAttribute);
    }
    if enum_name.len() > NAME_LIMIT || value_name.len() > NAME_LIMIT {
        return refuse(alloc, Cause::Limit);
    }
    Ok(ValueRef {
        enum_name: List::from_slice(alloc, enum_name)?,
        value_name: List::from_slice(alloc, value_name)?,
    })
}

/// A `primitiveType`.
pub enum PrimitiveWord {}

impl Form for PrimitiveWord {
    type Out = PrimitiveType;

    ghost form = { a_primitive };

    fn read(alloc: Global, value: &Json<'_>) -> Result<PrimitiveType, ElementErr> {
        match str_of(alloc, value)? {
            "char" => Ok(PrimitiveType::Integral(Prim::Char)),
            "int8" => Ok(PrimitiveType::Integral(Prim::I8)),
            "int16" => Ok(PrimitiveType::Integral(Prim::I16)),
            "int32" => Ok(PrimitiveType::Integral(Prim::I32)),
            "int64" => Ok(PrimitiveType::Integral(Prim::I64)),
            "uint8" => Ok(PrimitiveType::Integral(Prim::U8)),
            "uint16" => Ok(PrimitiveType::Integral(Prim::U16)),
            "uint32" => Ok(PrimitiveType::Integral(Prim::U32)),
            "uint64" => Ok(PrimitiveType::Integral(Prim::U64)),
            "float" => Ok(PrimitiveType::Float),
            "double" => Ok(PrimitiveType::Double),
            _ => refuse(alloc, Cause::BadAttribute),
        }
    }
}

/// A `presence`.
pub enum PresenceWord {}

impl Form for PresenceWord {
    type Out = Presence;

    ghost form = { a_presence };

    fn read(alloc: Global, value: &Json<'_>) -> Result<Presence, ElementErr> {
        match str_of(alloc, value)? {
            "required" => Ok(Presence::Required),
            "optional" => Ok(Presence::Optional),
            "constant" => Ok(Presence::Constant),
            _ => refuse(alloc, Cause::BadAttribute),
        }
    }
}

/// A `byteOrder`.
pub enum OrderWord {}

impl Form for OrderWord {
    type Out = Order;

    ghost form = { a_byte_order };

    fn read(alloc: Global, value: &Json<'_>) -> Result<Order, ElementErr> {
        match str_of(alloc, value)? {
            "littleEndian" => Ok(Order::Little),
            "bigEndian" => Ok(Order::Big),
            _ => refuse(alloc, Cause::BadAttribute),
        }
    }
}

/// The number of primitives in an array.
pub enum ArrayLength {}

impl Form for ArrayLength {
    type Out = u32;

    ghost form = { a_length };

    fn read(alloc: Global, value: &Json<'_>) -> Result<u32, ElementErr> {
        read_limited(alloc, value, LENGTH_LIMIT)
    }
}

/// An offset or the length of a block, in bytes.
pub enum BytePlace {}

impl Form for BytePlace {
    type Out = u32;

    ghost form = { a_place };

    fn read(alloc: Global, value: &Json<'_>) -> Result<u32, ElementErr> {
        read_limited(alloc, value, PLACE_LIMIT)
    }
}
