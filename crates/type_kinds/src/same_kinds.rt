ghost use Rattle.std.specs.Prelude.{◌≡◌, ◌↔◌, IsTrue};
ghost use Rattle.sbe_types.specs.declared.kind.Kind.{Leaf, Enum, Comp};

use sbe_types::{ConstValue, Kind, Leaf, List, Member, Named, NamedList};

/// Whether two kinds are equal.
#[cycle(same_kinds)]
pub fn is_same_kind(a: &Kind, b: &Kind) -> bool
    ensures { IsTrue result ↔ (a.now ≡ b.now) }
{
    match a {
        Kind::Leaf(leaf) => match b {
            Kind::Leaf(other) => is_same_leaf(leaf, other),
            Kind::Enum(_, _) | Kind::Set(_, _) | Kind::Comp(_) | Kind::Const(_) => false,
        },
        Kind::Enum(leaf, names) => match b {
            Kind::Enum(other, others) => is_same_leaf(leaf, other) && are_same_names(names, others),
            Kind::Leaf(_) | Kind::Set(_, _) | Kind::Comp(_) | Kind::Const(_) => false,
        },
        Kind::Set(prim, names) => match b {
            Kind::Set(other, others) => *prim == *other && are_same_names(names, others),
            Kind::Leaf(_) | Kind::Enum(_, _) | Kind::Comp(_) | Kind::Const(_) => false,
        },
        Kind::Comp(members) => match b {
            Kind::Comp(others) => are_equal(members, others),
            Kind::Leaf(_) | Kind::Enum(_, _) | Kind::Set(_, _) | Kind::Const(_) => false,
        },
        Kind::Const(value) => match b {
            Kind::Const(other) => is_same_value(value, other),
            Kind::Leaf(_) | Kind::Enum(_, _) | Kind::Set(_, _) | Kind::Comp(_) => false,
        },
    }
}

/// Whether two lists of members are equal.
#[cycle(same_kinds)]
fn are_equal(a: &List<Member>, b: &List<Member>) -> bool
    ensures { IsTrue result ↔ (a.now ≡ b.now) }
{
    if a.len() != b.len() {
        return false;
    }
    for i in 0..a.len() {
        if !is_equal(a.at(i), b.at(i)) {
            return false;
        }
    }
    true
}

#[cycle(same_kinds)]
fn is_equal(a: &Member, b: &Member) -> bool
    ensures { IsTrue result ↔ (a.now ≡ b.now) }
{
    a.name.as_slice() == b.name.as_slice() && a.offset == b.offset && is_same_kind(&a.kind, &b.kind)
}

fn is_same_leaf(a: &Leaf, b: &Leaf) -> bool
    ensures { IsTrue result ↔ (a.now ≡ b.now) }
{
    is_same_type(a, b) && is_same_range(a, b)
}

fn is_same_type(a: &Leaf, b: &Leaf) -> bool
    ensures { IsTrue result ↔ ((a.now.prim ≡ b.now.prim) × (a.now.length ≡ b.now.length) × (a.now.shape ≡ b.now.shape)) }
{
    a.prim == b.prim && a.length == b.length && a.shape == b.shape
}

fn is_same_range(a: &Leaf, b: &Leaf) -> bool
    ensures { IsTrue result ↔ ((a.now.presence ≡ b.now.presence) × (a.now.null ≡ b.now.null) × (a.now.low ≡ b.now.low) × (a.now.high ≡ b.now.high)) }
{
    a.presence == b.presence && a.null == b.null && a.low == b.low && a.high == b.high
}

fn are_same_names(a: &NamedList, b: &NamedList) -> bool
    ensures { IsTrue result ↔ (a.now ≡ b.now) }
{
    if a.len() != b.len() {
        return false;
    }
    for i in 0..a.len() {
        if !is_same_name(a.at(i), b.at(i)) {
            return false;
        }
    }
    true
}

fn is_same_name(a: &Named, b: &Named) -> bool
    ensures { IsTrue result ↔ (a.now ≡ b.now) }
{
    a.name.as_slice() == b.name.as_slice() && a.number == b.number
}

fn is_same_value(a: &ConstValue, b: &ConstValue) -> bool
    ensures { IsTrue result ↔ (a.now ≡ b.now) }
{
    match a {
        ConstValue::Num(number) => match b {
            ConstValue::Num(other) => *number == *other,
            ConstValue::Text(_) | ConstValue::Code(_, _) => false,
        },
        ConstValue::Text(text) => match b {
            ConstValue::Text(other) => text.as_slice() == other.as_slice(),
            ConstValue::Num(_) | ConstValue::Code(_, _) => false,
        },
        ConstValue::Code(prim, named) => match b {
            ConstValue::Code(other, value) => *prim == *other && is_same_name(named, value),
            ConstValue::Num(_) | ConstValue::Text(_) => false,
        },
    }
}
