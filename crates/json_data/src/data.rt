ghost use Rattle.std.specs.Prelude.{◌≡◌, option_and_then, option_map};
ghost use Rattle.serde_json.specs.Find.{as_array, as_integer, as_number, as_object, as_str, as_u64};
ghost use Rattle.json_data.specs.Trees.{data_of, items_of, members_of, num_of};

use crate::number::Number;

/// A member of an object: its key and its value.
pub type Pair<'a> = (&'a str, Json<'a>);

/// The data of a JSON text (RFC 8259). It borrows from the text, and from the space that read it.
#[derive(Clone, Copy)]
pub enum Json<'a> {
    /// `null`.
    Null,
    /// `true` or `false`.
    Bool(bool),
    /// A number.
    Number(Number),
    /// A string.
    String(&'a str),
    /// An array.
    Array(&'a [Json<'a>]),
    /// An object: its members in the order of the text. If several have the same key, the last one counts.
    Object(&'a [(&'a str, Json<'a>)]),
}

impl<'a> Json<'a> {
    /// The number, if this is one.
    pub fn as_number(&self) -> Option<Number>
        ensures { option_map num_of result ≡ as_number (data_of self.now) }
    {
        match self {
            Json::Number(number) => Some(*number),
            Json::Null | Json::Bool(_) | Json::String(_) | Json::Array(_) | Json::Object(_) => None,
        }
    }

    /// The number as a `u64`, if it is an integer that is at least 0 and below 2^64.
    pub fn as_u64(&self) -> Option<u64>
        ensures { result ≡ option_and_then as_u64 (as_number (data_of self.now)) }
    {
        self.as_number()?.as_u64()
    }

    /// The number as an integer, if it is one that is at least -2^63 and below 2^64.
    pub fn as_i128(&self) -> Option<i128>
        ensures { result ≡ option_and_then as_integer (as_number (data_of self.now)) }
    {
        self.as_number()?.as_i128()
    }

    /// The string, if this is one.
    pub fn as_str(&self) -> Option<&'a str>
        ensures { option_map (λ s. s.now) result ≡ as_str (data_of self.now) }
    {
        match self {
            Json::String(text) => Some(*text),
            Json::Null | Json::Bool(_) | Json::Number(_) | Json::Array(_) | Json::Object(_) => None,
        }
    }

    /// The items of the array, if this is one.
    pub fn as_array(&self) -> Option<&'a [Json<'a>]>
        ensures { option_map (λ items. items_of items.now) result ≡ as_array (data_of self.now) }
    {
        match self {
            Json::Array(items) => Some(*items),
            Json::Null | Json::Bool(_) | Json::Number(_) | Json::String(_) | Json::Object(_) =>
                None,
        }
    }

    /// The members of the object, if this is one.
    pub fn as_object(&self) -> Option<&'a [Pair<'a>]>
        ensures { option_map (λ members. members_of members.now) result ≡ as_object (data_of self.now) }
    {
        match self {
            Json::Object(members) => Some(*members),
            Json::Null | Json::Bool(_) | Json::Number(_) | Json::String(_) | Json::Array(_) => None,
        }
    }
}
