ghost use Rattle.std.specs.Prelude.{◌≡◌, ◌*◌, None, Some, length};
ghost use Rattle.sbe_types.specs.Numbers.{prim_width};
ghost use Rattle.sbe_types.specs.Wire.{array_bytes, element_bytes, elements_bytes};
ghost use Rattle.sbe_wire.specs.Misfit.{array_misfit, element_misfit, elements_misfit};
ghost use Rattle.schema_facts.specs.InOrder.{IsLeafInOrder};

use crate::number::put_num;
use sbe_types::{Elem, Leaf, Order, Value};

/// Writes an array that fits its leaf.
pub(crate) fn put_array(order: Order, leaf: &Leaf, v: &Value, out: &mut [u8])
    requires ready { IsLeafInOrder leaf.now }
    requires wide { length out.old ≡ prim_width leaf.now.prim * leaf.now.length }
    requires fits { array_misfit leaf.now v.now ≡ None }
    ensures { array_bytes order leaf.now v.now ≡ Some out.new }
{
    match v {
        Value::Nums(elements) => put_elements(order, leaf, elements.as_slice(), out),
        Value::Num(_)
        | Value::Null
        | Value::Text(_)
        | Value::Enum(_)
        | Value::Set(_)
        | Value::Comp(_)
        | Value::Const
        | Value::Absent => unreachable!(),
    }
}

/// Writes elements that fit their leaf, one after another.
fn put_elements(order: Order, leaf: &Leaf, elements: &[Elem], out: &mut [u8])
    requires ready { IsLeafInOrder leaf.now }
    requires wide { length out.old ≡ prim_width leaf.now.prim * length elements.now }
    requires fits { elements_misfit leaf.now 0 elements.now ≡ None }
    ensures { elements_bytes order leaf.now elements.now ≡ Some out.new }
{
    let wide = leaf.prim.width();
    for (i, element) in elements.iter().enumerate() {
        let at = wide * i;
        put_element(order, leaf, element, &mut out[at..at + wide]);
    }
}

fn put_element(order: Order, leaf: &Leaf, element: &Elem, out: &mut [u8])
    requires ready { IsLeafInOrder leaf.now }
    requires wide { length out.old ≡ prim_width leaf.now.prim }
    requires fits { element_misfit leaf.now element.now ≡ None }
    ensures bytes { element_bytes order leaf.now element.now ≡ Some out.new }
    ensures as_many { length out.new ≡ length out.old }
{
    match *element {
        Elem::Num(n) => put_num(order, leaf.prim, n, out),
        Elem::Null => put_num(order, leaf.prim, leaf.null, out),
    }
}
