ghost use Rattle.std.specs.Prelude.{◌≡◌, ◌≤◌, ◌<◌, ◌+◌, ◌*◌, Bool, Some, length, slice_get, take, drop};
ghost use Rattle.std.specs.Option.{IsSome};
ghost use Rattle.sbe_types.specs.declared.message.Value.{Value};
ghost use Rattle.sbe_types.specs.Numbers.{number_of, prim_width};
ghost use Rattle.sbe_types.specs.Shows.{Shows};
ghost use Rattle.field_values.specs.Reports.{element_of, elements_in, leaf_in, HasElement, seen_element};

use sbe_types::{Kind, Leaf, Order, get_num};

/// Element `j` of an array, or `None` if it is null. Requires a field that is an array with such an element.
pub fn element_in(order: Order, kind: &Kind, bytes: &[u8], j: usize) -> Option<i128>
    requires { HasElement order kind.now bytes.now j }
    ensures { (known : Bool) (v : Value) → Shows order known kind.now v bytes.now → j < length (elements_in v) → slice_get (elements_in v) j ≡ Some (element_of result) }
{
    element_at(order, leaf_of(kind), bytes, j)
}

/// The leaf of a kind.
fn leaf_of(kind: &Kind) -> &Leaf
    requires { IsSome (leaf_in kind.now) }
    ensures { leaf_in kind.now ≡ Some result.now }
{
    match kind {
        Kind::Leaf(leaf) => leaf,
        Kind::Enum(_, _) => unreachable!(),
        Kind::Set(_, _) => unreachable!(),
        Kind::Comp(_) => unreachable!(),
        Kind::Const(_) => unreachable!(),
    }
}

/// Element `j` of the array in the bytes of a leaf.
fn element_at(order: Order, leaf: &Leaf, bytes: &[u8], j: usize) -> Option<i128>
    requires { prim_width leaf.now.prim * j + prim_width leaf.now.prim ≤ length bytes.now }
    ensures { result ≡ seen_element leaf.now (number_of order leaf.now.prim (take (prim_width leaf.now.prim) (drop (prim_width leaf.now.prim * j) bytes.now))) }
{
    let wide = leaf.prim.width();
    let start = wide * j;
    element_shown(order, leaf, &bytes[start..start + wide])
}

/// The element that the bytes of one primitive encode.
fn element_shown(order: Order, leaf: &Leaf, bytes: &[u8]) -> Option<i128>
    requires { length bytes.now ≡ prim_width leaf.now.prim }
    ensures { result ≡ seen_element leaf.now (number_of order leaf.now.prim bytes.now) }
{
    let number = get_num(order, leaf.prim, bytes);
    if leaf.is_null(number) {
        None
    } else {
        Some(number)
    }
}
