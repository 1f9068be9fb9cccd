ghost use Rattle.std.specs.Prelude.{◌≡◌, ◌==◌, slice_index};
ghost use Rattle.serde_json.specs.Data.{Data};
ghost use Rattle.json_data.specs.Trees.{data_of};
ghost use Rattle.json_elements.specs.Reading.{Reading, Gives, GivesAs};
ghost use Rattle.json_elements.specs.Forms.{whole, whole_text, id_number, limited, text, text_or_number};

use crate::refusal::{Cause, ElementErr, refuse};
use itoa::Buffer;
use json_data::Json;
use lists::{List, Text};
use std::alloc::Global;

/// A form that the value of an attribute may have.
pub trait Form {
    type Out: Drop;

    /// The type that a value is read as.
    ghost form: { Data → Reading Self.Out };

    /// Reads a value. A refusal has no steps yet: it refers to the value itself.
    fn read(alloc: Global, value: &Json<'_>) -> Result<Self::Out, ElementErr>
        ensures { Gives result (form (data_of value.now)) };
}

/// An integer of 128 bits: a JSON integer, or a string of decimal digits with an optional `-`.
pub enum WholeNumber {}

impl Form for WholeNumber {
    type Out = i128;

    ghost form = { whole };

    fn read(alloc: Global, value: &Json<'_>) -> Result<i128, ElementErr> {
        read_whole(alloc, value)
    }
}

/// An integer from 0 to 4294967295.
pub enum IdNumber {}

impl Form for IdNumber {
    type Out = u32;

    ghost form = { id_number };

    fn read(alloc: Global, value: &Json<'_>) -> Result<u32, ElementErr> {
        let n = read_whole(alloc, value)?;
        if n < 0 || n > u32::MAX as i128 {
            return refuse(alloc, Cause::BadAttribute);
        }
        Ok(n as u32)
    }
}

/// A JSON string.
pub enum JsonText {}

impl Form for JsonText {
    type Out = Text;

    ghost form = { text };

    fn read(alloc: Global, value: &Json<'_>) -> Result<Text, ElementErr> {
        let text = str_of(alloc, value)?;
        Ok(List::from_slice(alloc, text.as_bytes())?)
    }
}

/// A JSON string, or a JSON integer, which is read as its decimal digits.
pub enum TextOrNumber {}

impl Form for TextOrNumber {
    type Out = Text;

    ghost form = { text_or_number };

    fn read(alloc: Global, value: &Json<'_>) -> Result<Text, ElementErr> {
        match value {
            Json::String(text) => Ok(List::from_slice(alloc, text.as_bytes())?),
            Json::Number(_) => {
                let n = read_whole(alloc, value)?;
                Ok(List::from_slice(alloc, Buffer::new().format(n).as_bytes())?)
            }
            _ => refuse(alloc, Cause::BadAttribute),
        }
    }
}

/// Reads an integer that is at least 0. One above `most` breaks a limit.
pub fn read_limited(alloc: Global, value: &Json<'_>, most: u32) -> Result<u32, ElementErr>
    ensures { Gives result (limited most (data_of value.now)) }
{
    let n = read_whole(alloc, value)?;
    if n < 0 {
        return refuse(alloc, Cause::BadAttribute);
    }
    if n > most as i128 {
        return refuse(alloc, Cause::Limit);
    }
    Ok(n as u32)
}

/// Reads the text of a JSON string.
pub fn str_of<'a>(alloc: Global, value: &Json<'a>) -> Result<&'a str, ElementErr>
    ensures { GivesAs (λ s. s.now) result (text (data_of value.now)) }
{
    match value.as_str() {
        Some(text) => Ok(text),
        None => refuse(alloc, Cause::BadAttribute),
    }
}

fn read_whole(alloc: Global, value: &Json<'_>) -> Result<i128, ElementErr>
    ensures { Gives result (whole (data_of value.now)) }
{
    match value {
        Json::Number(number) => match number.as_i128() {
            Some(n) => Ok(n),
            None => refuse(alloc, Cause::BadAttribute),
        },
        Json::String(text) => whole_of_text(alloc, text),
        _ => refuse(alloc, Cause::BadAttribute),
    }
}

fn whole_of_text(alloc: Global, text: &str) -> Result<i128, ElementErr>
    ensures { Gives result (whole_text text.now) }
{
    if has_plus(text.as_bytes()) {
        return refuse(alloc, Cause::BadAttribute);
    }
    match text.parse::<i128>() {
        Ok(n) => Ok(n),
        Err(_) => refuse(alloc, Cause::BadAttribute),
    }
}

fn has_plus(text: &[u8]) -> bool
    ensures { result ≡ (slice_index text.now 0 == 43) }
{
    !text.is_empty() && text[0] == b'+'
}
