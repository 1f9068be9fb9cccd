ghost use Rattle.std.specs.Prelude.{◌≡◌};
ghost use Rattle.schema_rules.specs.Kinds.{effective, array_shape, shape_of, low_of, high_of, null_of, leaf_of, encoding_of, encoding_named};
ghost use Rattle.schema_rules.specs.Names.{integral};

use crate::types::Types;
use sbe_types::{Leaf, LeafShape, Presence, Prim, PrimitiveType, TypeEl, TypesItem};
use schema_rules::{Encoding, Numbers};

/// The presence that applies: the field's own, else the type's, else required.
pub fn effective(own: Option<Presence>, of_type: Option<Presence>) -> Presence
    ensures { result ≡ effective own of_type }
{
    match own {
        Some(presence) => presence,
        None => match of_type {
            Some(presence) => presence,
            None => Presence::Required,
        },
    }
}

/// The primitive, if it isn't float or double.
pub fn integral(primitive: PrimitiveType) -> Option<Prim>
    ensures { result ≡ integral primitive }
{
    match primitive {
        PrimitiveType::Integral(prim) => Some(prim),
        PrimitiveType::Float | PrimitiveType::Double => None,
    }
}

/// The encoding that this name gives an enum or a set, if it names a `type` of numbers or characters.
pub fn encoding_named(types: &Types, name: &[u8]) -> Option<Encoding>
    ensures { result ≡ encoding_named types.now name.now }
{
    match types.named(name) {
        Some(TypesItem::Type(t)) => encoding_of(t),
        _ => None,
    }
}

fn encoding_of(t: &TypeEl) -> Option<Encoding>
    ensures { result ≡ encoding_of t.now }
{
    match integral(t.primitive_type) {
        Some(prim) => Some(Encoding {
            leaf: leaf_of(prim, Presence::Required, t),
            presence: t.presence,
        }),
        None => None,
    }
}

/// The leaf of a `type` with this presence.
pub fn leaf_of(prim: Prim, presence: Presence, t: &TypeEl) -> Leaf
    ensures { result ≡ leaf_of prim presence t.now }
{
    let shape = shape_of(prim, t);
    Leaf {
        prim,
        length: t.length,
        shape,
        presence,
        null: null_of(prim, t),
        low: low_of(prim, t),
        high: if shape == LeafShape::Octets {
            255
        } else {
            high_of(prim, t)
        },
    }
}

fn shape_of(prim: Prim, t: &TypeEl) -> LeafShape
    ensures { result ≡ shape_of prim t.now }
{
    if t.length == 1 {
        LeafShape::Number
    } else {
        array_shape(prim, t)
    }
}

/// How the elements of an array are interpreted.
fn array_shape(prim: Prim, t: &TypeEl) -> LeafShape
    ensures { result ≡ array_shape prim t.now }
{
    match prim {
        Prim::Char => {
            if t.character_encoding.is_some() {
                LeafShape::EncodedText
            } else {
                LeafShape::RangedText
            }
        }
        Prim::U8 => {
            if t.min_value.is_some() || t.max_value.is_some() {
                LeafShape::Numbers
            } else {
                LeafShape::Octets
            }
        }
        Prim::I8 | Prim::I16 | Prim::I32 | Prim::I64 | Prim::U16 | Prim::U32 | Prim::U64 => {
            LeafShape::Numbers
        }
    }
}

/// The lowest number of the range, stated or by default.
pub fn low_of(prim: Prim, t: &TypeEl) -> i128
    ensures { result ≡ low_of prim t.now }
{
    match t.min_value {
        Some(low) => low,
        None => Numbers::of(prim).low,
    }
}

/// The highest number of the range, stated or by default.
pub fn high_of(prim: Prim, t: &TypeEl) -> i128
    ensures { result ≡ high_of prim t.now }
{
    match t.max_value {
        Some(high) => high,
        None => Numbers::of(prim).high,
    }
}

fn null_of(prim: Prim, t: &TypeEl) -> i128
    ensures { result ≡ null_of prim t.now }
{
    match t.null_value {
        Some(null) => null,
        None => Numbers::of(prim).null,
    }
}
