// Whether leaves, names and constants are equal.
ghost use Rattle.std.specs.Prelude.{◌≡◌};
ghost use Rattle.std.specs.Str.{bytes_eq};
ghost use Rattle.std.specs.List.{list_all, list_any};
ghost use Rattle.sbe_types.specs.Numbers.{is_signed};
ghost use Rattle.version_laws.specs.Same.{is_char, same_bool, same_prim, shape_number, presence_number, same_form, same_range, same_leaf, same_named, same_names, lists_too, same_constant, same_offset};

use sbe_types::{ConstValue, Leaf, LeafShape, Named, NamedList, Presence, Prim};

fn is_char(prim: Prim) -> bool
    ensures { result ≡ is_char prim }
{
    match prim {
        Prim::Char => true,
        Prim::I8 | Prim::I16 | Prim::I32 | Prim::I64 => false,
        Prim::U8 | Prim::U16 | Prim::U32 | Prim::U64 => false,
    }
}

fn has_sign(prim: Prim) -> bool
    ensures { result ≡ is_signed prim }
{
    match prim {
        Prim::I8 | Prim::I16 | Prim::I32 | Prim::I64 => true,
        Prim::Char | Prim::U8 | Prim::U16 | Prim::U32 | Prim::U64 => false,
    }
}

fn shape_number(shape: LeafShape) -> u32
    ensures { result ≡ shape_number shape }
{
    match shape {
        LeafShape::Number => 0,
        LeafShape::RangedText => 1,
        LeafShape::EncodedText => 2,
        LeafShape::Octets => 3,
        LeafShape::Numbers => 4,
    }
}

fn presence_number(presence: Presence) -> u32
    ensures { result ≡ presence_number presence }
{
    match presence {
        Presence::Required => 0,
        Presence::Optional => 1,
        Presence::Constant => 2,
    }
}

fn are_same(a: bool, b: bool) -> bool
    ensures { result ≡ same_bool a b }
{
    if a { b } else { !b }
}

/// Whether two primitives are equal.
pub(crate) fn is_same_prim(a: Prim, b: Prim) -> bool
    ensures { result ≡ same_prim a b }
{
    a.width() == b.width() && are_same(has_sign(a), has_sign(b)) && are_same(is_char(a), is_char(b))
}

fn is_same_form(a: &Leaf, b: &Leaf) -> bool
    ensures { result ≡ same_form a.now b.now }
{
    is_same_prim(a.prim, b.prim)
        && a.length == b.length
        && shape_number(a.shape) == shape_number(b.shape)
        && presence_number(a.presence) == presence_number(b.presence)
}

fn is_same_range(a: &Leaf, b: &Leaf) -> bool
    ensures { result ≡ same_range a.now b.now }
{
    a.null == b.null && a.low == b.low && a.high == b.high
}

/// Whether two leaves are equal.
pub(crate) fn is_same_leaf(a: &Leaf, b: &Leaf) -> bool
    ensures { result ≡ same_leaf a.now b.now }
{
    is_same_form(a, b) && is_same_range(a, b)
}

/// Whether two names are equal.
pub(crate) fn is_same_name(a: &[u8], b: &[u8]) -> bool
    ensures { result ≡ bytes_eq a.now b.now }
{
    a == b
}

fn is_same_named(a: &Named, b: &Named) -> bool
    ensures { result ≡ same_named a.now b.now }
{
    is_same_name(a.name.as_slice(), b.name.as_slice()) && a.number == b.number
}

fn are_same_named(old: &NamedList, new: &NamedList) -> bool
    ensures { result ≡ same_names old.now new.now }
{
    if old.len() != new.len() {
        return false;
    }
    for i in 0..old.len() {
        if !is_same_named(old.at(i), new.at(i)) {
            return false;
        }
    }
    true
}

fn is_listed(named: &Named, new: &NamedList) -> bool
    ensures { result ≡ list_any (same_named named.now) new.now }
{
    new.as_slice()
        .iter()
        .any(|other| is_same_named(named, other))
}

fn are_listed(old: &NamedList, new: &NamedList) -> bool
    ensures { result ≡ list_all (λ x. list_any (same_named x) new.now) old.now }
{
    old.as_slice().iter().all(|named| is_listed(named, new))
}

/// Whether new lists what old lists. If it may list more, the order doesn't matter.
pub(crate) fn lists_too(more: bool, old: &NamedList, new: &NamedList) -> bool
    ensures { result ≡ lists_too more old.now new.now }
{
    if more {
        are_listed(old, new)
    } else {
        are_same_named(old, new)
    }
}

/// Whether two constants are equal.
pub(crate) fn is_same_constant(a: &ConstValue, b: &ConstValue) -> bool
    ensures { result ≡ same_constant a.now b.now }
{
    match a {
        ConstValue::Num(number) => match b {
            ConstValue::Num(other) => *number == *other,
            ConstValue::Text(_) | ConstValue::Code(_, _) => false,
        },
        ConstValue::Text(text) => match b {
            ConstValue::Text(other) => is_same_name(text.as_slice(), other.as_slice()),
            ConstValue::Num(_) | ConstValue::Code(_, _) => false,
        },
        ConstValue::Code(prim, named) => match b {
            ConstValue::Code(other, value) => is_same_prim(*prim, *other)
                && is_same_named(named, value),
            ConstValue::Num(_) | ConstValue::Text(_) => false,
        },
    }
}

/// Whether two stated offsets are equal.
pub(crate) fn is_same_offset(a: Option<u32>, b: Option<u32>) -> bool
    ensures { result ≡ same_offset a b }
{
    match a {
        None => b.is_none(),
        Some(place) => match b {
            None => false,
            Some(other) => place == other,
        },
    }
}
