ghost use Rattle.std.specs.Prelude.{◌≡◌, ◌≤◌, None, Some, true, length};
ghost use Rattle.sbe_types.specs.declared.kind.Kind.{Enum as EnumKind, Leaf as LeafKind, Set as SetKind};
ghost use Rattle.sbe_types.specs.Numbers.{prim_width};
ghost use Rattle.sbe_types.specs.Places.{width};
ghost use Rattle.sbe_types.specs.Wire.{enum_bytes, leaf_bytes, number_bytes, padded, set_bytes, text_bytes, wire_bytes};
ghost use Rattle.sbe_wire.specs.Misfit.{enum_misfit, leaf_misfit, number_misfit, set_misfit, text_misfit, value_misfit};
ghost use Rattle.schema_facts.specs.InOrder.{IsEnumInOrder, IsKindFrom, IsLeafInOrder, IsSetInOrder};
ghost use Rattle.field_bytes.specs.Faults.{is_single};

use crate::arrays::put_array;
use crate::number::put_num;
use sbe_types::{Kind, Leaf, LeafShape, NamedList, Order, Prim, Value};

/// Writes a value that fits its kind: a leaf, an enum or a set. Requires as many bytes as the kind is wide.
pub fn put_value(order: Order, kind: &Kind, v: &Value, out: &mut [u8])
    requires single { is_single kind.now ≡ true }
    requires ready { IsKindFrom 1 kind.now }
    requires wide { length out.old ≡ width kind.now }
    requires fits { value_misfit kind.now v.now ≡ None }
    ensures { wire_bytes order kind.now v.now ≡ Some out.new }
{
    match kind {
        Kind::Leaf(leaf) => put_leaf(order, leaf, v, out),
        Kind::Enum(leaf, names) => put_enum(order, leaf, names, v, out),
        Kind::Set(prim, choices) => put_set(order, *prim, choices, v, out),
        Kind::Comp(_) => unreachable!(),
        Kind::Const(_) => unreachable!(),
    }
}

fn put_leaf(order: Order, leaf: &Leaf, v: &Value, out: &mut [u8])
    requires ready { IsLeafInOrder leaf.now }
    requires wide { length out.old ≡ width (LeafKind leaf.now) }
    requires fits { leaf_misfit leaf.now.shape leaf.now v.now ≡ None }
    ensures { leaf_bytes order leaf.now.shape leaf.now v.now ≡ Some out.new }
{
    match leaf.shape {
        LeafShape::Number => put_number(order, leaf, v, out),
        LeafShape::RangedText | LeafShape::EncodedText => put_text(leaf, v, out),
        LeafShape::Octets | LeafShape::Numbers => put_array(order, leaf, v, out),
    }
}

fn put_number(order: Order, leaf: &Leaf, v: &Value, out: &mut [u8])
    requires ready { IsLeafInOrder leaf.now }
    requires wide { length out.old ≡ prim_width leaf.now.prim }
    requires fits { number_misfit leaf.now v.now ≡ None }
    ensures { number_bytes order leaf.now v.now ≡ Some out.new }
{
    match v {
        Value::Num(n) => put_num(order, leaf.prim, *n, out),
        Value::Null => put_num(order, leaf.prim, leaf.null, out),
        Value::Text(_)
        | Value::Nums(_)
        | Value::Enum(_)
        | Value::Set(_)
        | Value::Comp(_)
        | Value::Const
        | Value::Absent => unreachable!(),
    }
}

fn put_enum(order: Order, leaf: &Leaf, _names: &NamedList, v: &Value, out: &mut [u8])
    requires ready { IsEnumInOrder leaf.now _names.now }
    requires wide { length out.old ≡ prim_width leaf.now.prim }
    requires fits { enum_misfit leaf.now _names.now v.now ≡ None }
    ensures { enum_bytes order leaf.now v.now ≡ Some out.new }
{
    match v {
        Value::Enum(n) => put_num(order, leaf.prim, *n, out),
        Value::Null => put_num(order, leaf.prim, leaf.null, out),
        Value::Num(_)
        | Value::Text(_)
        | Value::Nums(_)
        | Value::Set(_)
        | Value::Comp(_)
        | Value::Const
        | Value::Absent => unreachable!(),
    }
}

fn put_set(order: Order, prim: Prim, _choices: &NamedList, v: &Value, out: &mut [u8])
    requires ready { IsSetInOrder prim _choices.now }
    requires wide { length out.old ≡ prim_width prim }
    requires fits { set_misfit _choices.now v.now ≡ None }
    ensures { set_bytes order prim v.now ≡ Some out.new }
{
    match v {
        Value::Set(bits) => put_num(order, prim, *bits as i128, out),
        Value::Num(_)
        | Value::Null
        | Value::Text(_)
        | Value::Nums(_)
        | Value::Enum(_)
        | Value::Comp(_)
        | Value::Const
        | Value::Absent => unreachable!(),
    }
}

fn put_text(_leaf: &Leaf, v: &Value, out: &mut [u8])
    requires wide { length out.old ≡ width (LeafKind _leaf.now) }
    requires fits { text_misfit _leaf.now v.now ≡ None }
    ensures { text_bytes _leaf.now v.now ≡ Some out.new }
{
    match v {
        Value::Text(text) => put_padded(text.as_slice(), out),
        Value::Null => out.fill(0),
        Value::Num(_)
        | Value::Nums(_)
        | Value::Enum(_)
        | Value::Set(_)
        | Value::Comp(_)
        | Value::Const
        | Value::Absent => unreachable!(),
    }
}

/// Writes a text, and zeros after it.
fn put_padded(text: &[u8], out: &mut [u8])
    requires { length text.now ≤ length out.old }
    ensures { out.new ≡ padded (length out.old) text.now }
{
    let end = text.len();
    out[..end].copy_from_slice(text);
    out[end..].fill(0);
}
