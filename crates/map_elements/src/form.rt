ghost use Rattle.std.specs.Prelude.{◌≡◌, nat_eq};
ghost use Rattle.std.specs.List.{list_any};
ghost use Rattle.map_elements.specs.Names.{an_id, a_msg_type, a_code_value};

use json_data::Json;
use json_elements::{Cause, ElementErr, Form, WholeNumber, refuse, str_of};
use lists::{List, Text};
use std::alloc::Global;

/// The greatest id.
pub const ID_LIMIT: u32 = 999_999_999;

/// The most bytes of a msgType or of a code's value.
pub const TEXT_LIMIT: usize = 64;

/// An id: an integer from 1 to 999999999.
pub enum MapId {}

impl Form for MapId {
    type Out = u32;

    ghost form = { an_id };

    fn read(alloc: Global, value: &Json<'_>) -> Result<u32, ElementErr> {
        let n = WholeNumber::read(alloc, value)?;
        if n < 1 || n > ID_LIMIT as i128 {
            return refuse(alloc, Cause::BadAttribute);
        }
        Ok(n as u32)
    }
}

/// A msgType: 1 to 64 bytes without SOH, which ends a field of tag-value text.
pub enum MsgType {}

impl Form for MsgType {
    type Out = Text;

    ghost form = { a_msg_type };

    fn read(alloc: Global, value: &Json<'_>) -> Result<Text, ElementErr> {
        let text = str_of(alloc, value)?.as_bytes();
        if has_soh(text) || text.is_empty() || text.len() > TEXT_LIMIT {
            return refuse(alloc, Cause::BadAttribute);
        }
        Ok(List::from_slice(alloc, text)?)
    }
}

/// A code's value: 1 to 64 bytes.
pub enum CodeValue {}

impl Form for CodeValue {
    type Out = Text;

    ghost form = { a_code_value };

    fn read(alloc: Global, value: &Json<'_>) -> Result<Text, ElementErr> {
        let text = str_of(alloc, value)?.as_bytes();
        if text.is_empty() || text.len() > TEXT_LIMIT {
            return refuse(alloc, Cause::BadAttribute);
        }
        Ok(List::from_slice(alloc, text)?)
    }
}

fn has_soh(text: &[u8]) -> bool
    ensures { result ≡ list_any (nat_eq 1) text.now }
{
    for byte in text {
        if 1 == *byte {
            return true;
        }
    }
    false
}
