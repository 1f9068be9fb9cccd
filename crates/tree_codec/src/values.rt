// The values that bytes encode.
ghost use Rattle.std.specs.Prelude.{◌≡◌, ◌≤◌, ◌+◌, ◌*◌, pos, false, true, length, take, drop, IfOk};
ghost use Rattle.sbe_types.specs.declared.kind.Kind.{Leaf as LeafKind, Comp};
ghost use Rattle.sbe_types.specs.declared.message.Value.TheVariants.{Comp as CompValue, Nums as NumsValue};
ghost use Rattle.sbe_types.specs.Numbers.{number_of, prim_width};
ghost use Rattle.sbe_types.specs.Places.{width, is_const, begin_of as begins_at, end_past};
ghost use Rattle.sbe_types.specs.Shows.{text_value};
ghost use Rattle.schema_rules.specs.TypeRules.{is_set_primitive};
ghost use Rattle.schema_facts.specs.InOrder.{IsKindInOrder, IsLeafInOrder};
ghost use Rattle.field_values.specs.Reports.{before_zero};
ghost use Rattle.tree_codec.specs.TheValues.{number_value, enum_value, element_value, elements_from, IsLeafValue, IsTheValue};

use field_values::before_zero;
use flat_rows::{begin_of, end_after};
use lists::{List, NoMem};
use sbe_types::{
    Elem, ElemList, Kind, Leaf, LeafShape, Member, Order, Presence, Prim, Value, ValueList, get_num,
};
use std::alloc::Global;

/// The value that the bytes of a kind encode. Requires a valid kind, and as many bytes as it is wide.
#[cycle(kind)]
pub(crate) fn value_of(
    alloc: Global,
    order: Order,
    kind: &Kind,
    bytes: &[u8],
) -> Result<Value, NoMem>
    requires ready { IsKindInOrder kind.now }
    requires wide { length bytes.now ≡ width kind.now }
    ensures { IfOk result (λ v. IsTheValue order kind.now bytes.now v) }
{
    match kind {
        Kind::Leaf(leaf) => leaf_value(alloc, order, leaf, bytes),
        Kind::Enum(leaf, _) => Ok(enum_value(order, leaf, bytes)),
        Kind::Set(prim, _) => Ok(Value::Set(set_number(order, *prim, bytes))),
        Kind::Comp(members) => match member_values(alloc, order, members, bytes) {
            Ok(values) => Ok(Value::Comp(values)),
            Err(e) => Err(e),
        },
        Kind::Const(_) => Ok(Value::Const),
    }
}

/// The values of a composite's members.
#[cycle(kind)]
fn member_values(
    alloc: Global,
    order: Order,
    members: &List<Member>,
    bytes: &[u8],
) -> Result<ValueList, NoMem>
    requires ready { IsKindInOrder (Comp members.now) }
    requires wide { length bytes.now ≡ width (Comp members.now) }
    ensures { IfOk result (λ vs. IsTheValue order (Comp members.now) bytes.now (CompValue vs)) }
{
    let mut values = List::new(alloc);
    let mut end = 0;
    for member in members.as_slice() {
        let after = end_after(end, member.offset, &member.kind);
        let part = member_bytes(member, end, after, bytes);
        values.push(value_of(alloc, order, &member.kind, part)?)?;
        end = after;
    }
    Ok(values)
}

/// The bytes of a composite's member, which follows members that end at `end` and itself ends at `after`. A constant
/// has none.
fn member_bytes<'a>(member: &Member, end: u32, after: u32, bytes: &'a [u8]) -> &'a [u8]
    requires after { after ≡ end_past end member.now.offset member.now.kind }
    requires within { is_const member.now.kind ≡ false → begins_at end member.now.offset + width member.now.kind ≤ length bytes.now }
    ensures { result.now ≡ take (width member.now.kind) (drop (begins_at end member.now.offset) bytes.now) }
{
    match &member.kind {
        Kind::Const(_) => &[],
        Kind::Leaf(_) | Kind::Enum(_, _) | Kind::Set(_, _) | Kind::Comp(_) => {
            &bytes[begin_of(end, member.offset) as usize..after as usize]
        }
    }
}

/// The number of a set's bytes.
fn set_number(order: Order, prim: Prim, bytes: &[u8]) -> u64
    requires encoding { is_set_primitive prim ≡ true }
    requires wide { length bytes.now ≡ prim_width prim }
    ensures { pos result ≡ number_of order prim bytes.now }
{
    get_num(order, prim, bytes) as u64
}

/// The number of an enum's bytes, or null.
fn enum_value(order: Order, leaf: &Leaf, bytes: &[u8]) -> Value
    requires { length bytes.now ≡ prim_width leaf.now.prim }
    ensures { result ≡ enum_value leaf.now (number_of order leaf.now.prim bytes.now) }
{
    let number = get_num(order, leaf.prim, bytes);
    if leaf.is_null(number) {
        Value::Null
    } else {
        Value::Enum(number)
    }
}

/// The value of a single number, a text or an array.
fn leaf_value(alloc: Global, order: Order, leaf: &Leaf, bytes: &[u8]) -> Result<Value, NoMem>
    requires order { IsLeafInOrder leaf.now }
    requires wide { length bytes.now ≡ width (LeafKind leaf.now) }
    ensures { IfOk result (λ v. IsLeafValue order leaf.now bytes.now v) }
{
    match leaf.shape {
        LeafShape::Number => Ok(number_value(order, leaf, bytes)),
        LeafShape::RangedText => text_value(alloc, leaf, bytes),
        LeafShape::EncodedText => text_value(alloc, leaf, bytes),
        LeafShape::Octets => array_value(alloc, order, leaf, bytes),
        LeafShape::Numbers => array_value(alloc, order, leaf, bytes),
    }
}

/// A single number, or null.
fn number_value(order: Order, leaf: &Leaf, bytes: &[u8]) -> Value
    requires { length bytes.now ≡ prim_width leaf.now.prim }
    ensures { result ≡ number_value leaf.now (number_of order leaf.now.prim bytes.now) }
{
    let number = get_num(order, leaf.prim, bytes);
    if leaf.is_null(number) {
        Value::Null
    } else {
        Value::Num(number)
    }
}

/// The text before the first 00, or null if it is empty and the leaf is optional.
fn text_value(alloc: Global, leaf: &Leaf, bytes: &[u8]) -> Result<Value, NoMem>
    ensures { IfOk result (λ v. v ≡ text_value leaf.now (before_zero bytes.now)) }
{
    let text = before_zero(bytes);
    if leaf.presence == Presence::Optional && text.is_empty() {
        return Ok(Value::Null);
    }
    Ok(Value::Text(List::from_slice(alloc, text)?))
}

/// The elements of an array.
fn array_value(alloc: Global, order: Order, leaf: &Leaf, bytes: &[u8]) -> Result<Value, NoMem>
    requires { length bytes.now ≡ prim_width leaf.now.prim * leaf.now.length }
    ensures { IfOk result (λ v. v ≡ NumsValue (elements_from order leaf.now leaf.now.length bytes.now)) }
{
    Ok(Value::Nums(elements_of(alloc, order, leaf, bytes)?))
}

/// The elements of an array, in order.
fn elements_of(alloc: Global, order: Order, leaf: &Leaf, bytes: &[u8]) -> Result<ElemList, NoMem>
    requires { length bytes.now ≡ prim_width leaf.now.prim * leaf.now.length }
    ensures { IfOk result (λ es. es ≡ elements_from order leaf.now leaf.now.length bytes.now) }
{
    let wide = leaf.prim.width();
    let mut elements = List::new(alloc);
    let mut rest = bytes;
    let mut left = leaf.length;
    while left > 0 {
        elements.push(element_value(order, leaf, &rest[..wide]))?;
        rest = &rest[wide..];
        left -= 1;
    }
    Ok(elements)
}

/// An element of an array: a number, or null.
fn element_value(order: Order, leaf: &Leaf, bytes: &[u8]) -> Elem
    requires { length bytes.now ≡ prim_width leaf.now.prim }
    ensures { result ≡ element_value leaf.now (number_of order leaf.now.prim bytes.now) }
{
    let number = get_num(order, leaf.prim, bytes);
    if leaf.is_null(number) {
        Elem::Null
    } else {
        Elem::Num(number)
    }
}
