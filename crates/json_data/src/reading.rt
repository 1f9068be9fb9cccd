ghost use Rattle.std.specs.Prelude.{◌≡◌, ◌≢◌, ◌<◌, ◌++◌, ◌∷◌, [], length, Err, None, Some, IfOk, IsUtf8, OnOk};
ghost use Rattle.json.specs.Json.{items, members, value};
ghost use Rattle.serde_json.specs.Data.{no_members};
ghost use Rattle.serde_json.specs.Read.{converted, max_depth, of_items, of_json, of_members, read as data_read};
ghost use Rattle.json_data.specs.Trees.{data_of, items_of, members_of};

use crate::data::Json;
use crate::number::Number;
use bumpalo::Bump;
use bumpalo::collections::into_bump_slice;
use json::{Invalid, Reader, Scratch, Token};
use std::alloc::{AllocError, Global};
use thiserror::Error;

/// How deeply arrays and objects may nest.
const MAX_DEPTH: usize = 127;

/// Why no data was read.
#[derive(Clone, Copy, Debug, PartialEq, Eq, Drop, Error)]
pub enum JsonFault {
    /// It isn't a JSON text, contains a number that is too large for a 64-bit float, or nests too deeply.
    #[error("not JSON")]
    NotJson,
    /// Out of memory.
    #[error("out of memory")]
    Memory,
}

impl From<Invalid> for JsonFault {
    ghost use Rattle.std.specs.Prelude.{◌≡◌};
    ghost use Rattle.json_data.specs.declared.reading.JsonFault.TheVariants.{NotJson};

    ghost from_gives = { λ _ e. e ≡ NotJson };

    fn from(_: Invalid) -> JsonFault {
        JsonFault::NotJson
    }
}

impl From<AllocError> for JsonFault {
    ghost use Rattle.std.specs.Prelude.{◌≡◌};
    ghost use Rattle.json_data.specs.declared.reading.JsonFault.TheVariants.{Memory};

    ghost from_gives = { λ _ e. e ≡ Memory };

    fn from(_: AllocError) -> JsonFault {
        JsonFault::Memory
    }
}

/// The memory for reading. It is lent to one text after another, and keeps what it has allocated.
#[derive(Drop)]
pub struct JsonSpace {
    arena: Bump,
    scratch: Scratch,
}

impl JsonSpace {
    /// Creates a space without memory.
    pub fn new(alloc: Global) -> JsonSpace {
        JsonSpace {
            arena: Bump::new(alloc),
            scratch: Scratch::new(alloc),
        }
    }

    /// Reads the data of a text in UTF-8.
    ///
    /// # Errors
    ///
    /// `NotJson` if the bytes aren't a JSON text; `Memory` if memory runs out.
    pub fn read<'a>(&'a mut self, bytes: &'a [u8]) -> Result<Json<'a>, JsonFault>
        ensures ok { IfOk result (λ d. IsUtf8 bytes.now × (data_read bytes.now ≡ Some (data_of d))) }
        ensures err { result ≡ Err JsonFault.NotJson → IsUtf8 bytes.now → data_read bytes.now ≡ None }
    {
        // If this fails, the arena is kept as it is and goes on growing.
        let _ = self.arena.reset();
        match simdutf8::basic::from_utf8(bytes) {
            Ok(text) => read_text(&self.arena, text, &mut self.scratch),
            Err(_) => Err(JsonFault::NotJson),
        }
    }
}

/// The data of a text.
fn read_text<'a>(
    arena: &'a Bump,
    text: &'a str,
    scratch: &'a mut Scratch,
) -> Result<Json<'a>, JsonFault>
    ensures ok { IfOk result (λ d. data_read text.now ≡ Some (data_of d)) }
    ensures err { result ≡ Err JsonFault.NotJson → data_read text.now ≡ None }
{
    let mut reader = Reader::new(text, scratch)?;
    let data = read_data(arena, &mut reader, MAX_DEPTH)?;
    if reader.next().is_some() {
        return Err(JsonFault::NotJson);
    }
    Ok(data)
}

/// The next data of a reader, in which arrays and objects nest at most `depth` deep.
#[cycle(read)]
#[inline(always)]
fn read_data<'a>(
    arena: &'a Bump,
    reader: &mut Reader<'a>,
    depth: usize,
) -> Result<Json<'a>, JsonFault>
    ensures ok { IfOk result (λ d. converted of_json (value depth reader.old) ≡ Some (data_of d, reader.new)) }
    ensures shorter { OnOk result (length reader.new < length reader.old) }
    ensures err { result ≡ Err JsonFault.NotJson → converted of_json (value depth reader.old) ≡ None }
{
    let token = reader.next().ok_or(Invalid)?;
    match token {
        Token::String(text) => Ok(Json::String(text)),
        Token::Number(text) => match Number::parse(text) {
            Some(number) => Ok(Json::Number(number)),
            None => Err(JsonFault::NotJson),
        },
        Token::Bool(truth) => Ok(Json::Bool(truth)),
        Token::Null => Ok(Json::Null),
        Token::EndObject | Token::EndArray | Token::Key(_) | Token::Bad => Err(JsonFault::NotJson),
        Token::BeginArray => {
            if depth == 0 {
                return Err(JsonFault::NotJson);
            }
            Ok(Json::Array(read_items(arena, reader, depth - 1)?))
        }
        Token::BeginObject => {
            if depth == 0 {
                return Err(JsonFault::NotJson);
            }
            Ok(Json::Object(read_members(arena, reader, depth - 1)?))
        }
    }
}

/// The items of an array whose opening bracket has been read.
#[cycle(read)]
#[inline(never)]
fn read_items<'a>(
    arena: &'a Bump,
    reader: &mut Reader<'a>,
    depth: usize,
) -> Result<&'a [Json<'a>], JsonFault>
    ensures ok { IfOk result
        (λ v. converted of_items (items (value depth) (length reader.old) reader.old) ≡ Some (items_of v.now, reader.new)) }
    ensures shorter { OnOk result (length reader.new < length reader.old) }
    ensures err { result ≡ Err JsonFault.NotJson → converted of_items (items (value depth) (length reader.old) reader.old) ≡ None }
{
    let mut found = Vec::new(arena);
    'items: while !reader.take_end_array() {
        let item = read_data(arena, reader, depth)?;
        push(&mut found, item)?;
    }
    Ok(into_bump_slice(found))
}

/// The members of an object whose opening brace has been read.
#[cycle(read)]
#[inline(never)]
fn read_members<'a>(
    arena: &'a Bump,
    reader: &mut Reader<'a>,
    depth: usize,
) -> Result<&'a [(&'a str, Json<'a>)], JsonFault>
    ensures ok { IfOk result
        (λ v. converted (λ ms. of_members ms no_members) (members (value depth) (length reader.old) reader.old)
        ≡ Some (members_of v.now, reader.new)) }
    ensures shorter { OnOk result (length reader.new < length reader.old) }
    ensures err { result ≡ Err JsonFault.NotJson
        → converted (λ ms. of_members ms no_members) (members (value depth) (length reader.old) reader.old) ≡ None }
{
    let mut found = Vec::new(arena);
    'members: while let Some(key) = reader.next_key()? {
        let member = read_data(arena, reader, depth)?;
        push(&mut found, (key, member))?;
    }
    Ok(into_bump_slice(found))
}

/// Appends an item.
#[inline(always)]
fn push<'a, T: Drop>(items: &mut Vec<T, &'a Bump>, item: T) -> Result<(), JsonFault>
    ensures ok { OnOk result (items.new.items ≡ items.old.items ++ item ∷ []) }
    ensures err { result ≢ Err JsonFault.NotJson }
{
    match items.push(item) {
        Ok(()) => Ok(()),
        Err(_) => Err(JsonFault::Memory),
    }
}
