use crate::refusal::RowErr;
use serde_json::{Map, Value};

/// The members of a JSON object.
pub type Members = Map<String, Value>;

/// Refuses a key that isn't one of the known ones.
pub fn refuse_unknown(members: &Members, known: &[&str]) -> Result<(), RowErr> {
    for (key, _) in members.iter() {
        if !is_among(key.as_str(), known) {
            return Err(RowErr::UnknownKey(key.clone()?));
        }
    }
    Ok(())
}

fn is_among(key: &str, known: &[&str]) -> bool {
    known.iter().any(|name| *name == key)
}

/// The value of a required key.
pub fn needed<'a>(members: &'a Members, key: &'static str) -> Result<&'a Value, RowErr> {
    match members.get(key) {
        Some(value) => Ok(value),
        None => Err(RowErr::Missing(key)),
    }
}

/// The text of a required key.
pub fn needed_text<'a>(members: &'a Members, key: &'static str) -> Result<&'a str, RowErr> {
    text_of(needed(members, key)?, key)
}

/// The number of a required key.
pub fn needed_number(members: &Members, key: &'static str) -> Result<usize, RowErr> {
    number_of(needed(members, key)?, key)
}

/// The number of a key that may be missing.
pub fn number(members: &Members, key: &'static str) -> Result<Option<usize>, RowErr> {
    match members.get(key) {
        Some(value) => Ok(Some(number_of(value, key)?)),
        None => Ok(None),
    }
}

/// The members of the object of a key that may be missing.
pub fn object<'a>(members: &'a Members, key: &'static str) -> Result<Option<&'a Members>, RowErr> {
    match members.get(key) {
        Some(value) => Ok(Some(object_of(value, key)?)),
        None => Ok(None),
    }
}

/// The items of the array of a key, or none if it is missing.
pub fn items<'a>(members: &'a Members, key: &'static str) -> Result<&'a [Value], RowErr> {
    match members.get(key) {
        Some(value) => items_of(value, key),
        None => Ok(&[]),
    }
}

/// The value as a text.
pub fn text_of<'a>(value: &'a Value, key: &'static str) -> Result<&'a str, RowErr> {
    match value.as_str() {
        Some(text) => Ok(text),
        None => Err(RowErr::NotOfForm(key, "a text")),
    }
}

/// The value as a number.
pub fn number_of(value: &Value, key: &'static str) -> Result<usize, RowErr> {
    match value.as_u64() {
        Some(number) => Ok(number as usize),
        None => Err(RowErr::NotOfForm(key, "a whole number, 0 or more")),
    }
}

/// The items of the value, which must be an array.
pub fn items_of<'a>(value: &'a Value, key: &'static str) -> Result<&'a [Value], RowErr> {
    match value.as_array() {
        Some(items) => Ok(items.as_slice()),
        None => Err(RowErr::NotOfForm(key, "an array")),
    }
}

/// The members of the value, which must be an object.
fn object_of<'a>(value: &'a Value, key: &'static str) -> Result<&'a Members, RowErr> {
    match value.as_object() {
        Some(members) => Ok(members),
        None => Err(RowErr::NotOfForm(key, "an object")),
    }
}
