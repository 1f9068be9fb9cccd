//! Leaves and lists of names in the notation of rows.

use anyhow::{Result, bail};
use lists::List;
use sbe_types::{Bytes, Leaf, LeafShape, Named, NamedList, Presence, Prim};
use serde_json::Value;
use std::alloc::Global;

/// The primitive with this name.
pub fn prim_of(name: &str) -> Result<Prim> {
    match name {
        "char" => Ok(Prim::Char),
        "int8" => Ok(Prim::I8),
        "int16" => Ok(Prim::I16),
        "int32" => Ok(Prim::I32),
        "int64" => Ok(Prim::I64),
        "uint8" => Ok(Prim::U8),
        "uint16" => Ok(Prim::U16),
        "uint32" => Ok(Prim::U32),
        "uint64" => Ok(Prim::U64),
        _ => bail!("no primitive: {name}"),
    }
}

fn shape_of(name: &str) -> Result<LeafShape> {
    match name {
        "number" => Ok(LeafShape::Number),
        "ranged" => Ok(LeafShape::RangedText),
        "encoded" => Ok(LeafShape::EncodedText),
        "octets" => Ok(LeafShape::Octets),
        "numbers" => Ok(LeafShape::Numbers),
        _ => bail!("no shape: {name}"),
    }
}

/// A leaf: its primitive, length, shape, least and greatest number, and its null if it is optional.
pub fn leaf_of(alloc: Global, text: &str) -> Result<Leaf> {
    let mut words = Vec::new(alloc);
    for word in text.split(' ') {
        words.push(word)?;
    }
    if words.len() < 5 {
        bail!("no leaf: {text}");
    }
    let high = words[4].parse::<i128>()?;
    let leaf = Leaf {
        prim: prim_of(words[0])?,
        length: words[1].parse::<u32>()?,
        shape: shape_of(words[2])?,
        presence: Presence::Required,
        null: high.saturating_add(1),
        low: words[3].parse::<i128>()?,
        high,
    };
    match words.get(5) {
        Some(null) => Ok(Leaf {
            presence: Presence::Optional,
            null: null.parse::<i128>()?,
            ..leaf
        }),
        None => Ok(leaf),
    }
}

/// A name and its number, given as an array of the two.
fn named(alloc: Global, pair: &Value) -> Result<Named> {
    let name = pair.get(0).and_then(Value::as_str);
    let number = pair.get(1).and_then(Value::as_i64);
    let (Some(name), Some(number)) = (name, number) else {
        bail!("no name with its number");
    };
    Ok(Named {
        name: Bytes::from_slice(alloc, name.as_bytes())?,
        number: i128::from(number),
    })
}

/// Names and their numbers, given as an array of arrays of two.
pub fn names_of(alloc: Global, text: &str) -> Result<NamedList> {
    let value = Value::from_str(alloc, text)?;
    let Some(pairs) = value.as_array() else {
        bail!("no names: {text}");
    };
    let mut list = List::new(alloc);
    for pair in pairs {
        list.push(named(alloc, pair)?)?;
    }
    Ok(list)
}
