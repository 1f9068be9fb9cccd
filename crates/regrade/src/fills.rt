//! The empty values of parts that a message lacks.

ghost use Rattle.std.specs.Prelude.{◌≡◌, IfOk, Some, replicate};
ghost use Rattle.sbe_types.specs.declared.message.Value.TheVariants as value;
ghost use Rattle.sbe_types.specs.declared.message.Elem.TheVariants.{Null as NullElem};
ghost use Rattle.regrade_laws.specs.Fill.{composite_of, fill, if_optional, null_of};
ghost use Rattle.regrade.specs.Each.{fill_each};

use lists::{List, NoMem};
use sbe_types::{Elem, ElemList, Kind, Leaf, LeafShape, Member, Presence, Value, ValueList};
use std::alloc::Global;

/// The empty value of a kind, if it has one.
#[cycle(fill)]
pub(crate) fn fill_of(alloc: Global, kind: &Kind) -> Result<Option<Value>, NoMem>
    ensures { IfOk result (λ value. value ≡ fill kind.now) }
{
    match kind {
        Kind::Leaf(leaf) => leaf_fill(alloc, leaf),
        Kind::Enum(leaf, _) => Ok(enum_fill(leaf.presence)),
        Kind::Set(_, _) => Ok(Some(Value::Set(0))),
        Kind::Comp(members) => Ok(composite_of(member_fills(alloc, members)?)),
        Kind::Const(_) => Ok(Some(Value::Const)),
    }
}

/// The composite of these values of its members.
fn composite_of(values: Option<ValueList>) -> Option<Value>
    ensures { result ≡ composite_of values }
{
    match values {
        Some(values) => Some(Value::Comp(values)),
        None => None,
    }
}

/// The empty values of a composite's members, if each has one.
#[cycle(fill)]
fn member_fills(alloc: Global, members: &List<Member>) -> Result<Option<ValueList>, NoMem>
    ensures { IfOk result (λ values. values ≡ fill_each members.now) }
{
    let mut values = List::new(alloc);
    for member in members.as_slice() {
        match fill_of(alloc, &member.kind)? {
            Some(value) => values.push(value)?,
            None => return Ok(None),
        }
    }
    Ok(Some(values))
}

/// The empty value of an enum: null, if it is optional.
fn enum_fill(presence: Presence) -> Option<Value>
    ensures { result ≡ if_optional presence (Some value.Null) }
{
    match presence {
        Presence::Optional => Some(Value::Null),
        Presence::Required | Presence::Constant => None,
    }
}

/// The empty value of a number, a text or an array, if it is optional.
fn leaf_fill(alloc: Global, leaf: &Leaf) -> Result<Option<Value>, NoMem>
    ensures { IfOk result (λ value. value ≡ if_optional leaf.now.presence (null_of leaf.now leaf.now.shape)) }
{
    match leaf.presence {
        Presence::Optional => null_of(alloc, leaf),
        Presence::Required | Presence::Constant => Ok(None),
    }
}

/// The null of a number, a text or an array; octets have none.
fn null_of(alloc: Global, leaf: &Leaf) -> Result<Option<Value>, NoMem>
    ensures { IfOk result (λ value. value ≡ null_of leaf.now leaf.now.shape) }
{
    match leaf.shape {
        LeafShape::Number | LeafShape::RangedText | LeafShape::EncodedText => Ok(Some(Value::Null)),
        LeafShape::Octets => Ok(None),
        LeafShape::Numbers => Ok(Some(Value::Nums(nulls(alloc, leaf.length)?))),
    }
}

/// `count` elements that are null.
fn nulls(alloc: Global, count: u32) -> Result<ElemList, NoMem>
    ensures { IfOk result (λ elements. elements ≡ replicate count NullElem) }
{
    let mut elements = List::new(alloc);
    for _i in 0..count {
        elements.push(Elem::Null)?;
    }
    Ok(elements)
}
