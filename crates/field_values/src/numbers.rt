ghost use Rattle.std.specs.Prelude.{◌≡◌, Bool, Some};
ghost use Rattle.std.specs.Option.{IsSome};
ghost use Rattle.sbe_types.specs.declared.message.Value.{Value};
ghost use Rattle.sbe_types.specs.Shows.{Shows};
ghost use Rattle.schema_facts.specs.InOrder.{IsKindInOrder};
ghost use Rattle.field_values.specs.Reports.{number_in, prim_in, HasNumber};

use sbe_types::{Kind, Order, Prim, get_num};

/// The number of a single number, an enum or a set. Requires a field that has one.
pub fn number_in(order: Order, kind: &Kind, bytes: &[u8]) -> i128
    requires ready { IsKindInOrder kind.now }
    requires number { HasNumber order kind.now bytes.now }
    ensures { (known : Bool) (v : Value) → Shows order known kind.now v bytes.now → IsSome (number_in v) → number_in v ≡ Some result }
{
    get_num(order, prim_of(kind), bytes)
}

/// The primitive of a kind that may be a single number.
fn prim_of(kind: &Kind) -> Prim
    requires { IsSome (prim_in kind.now) }
    ensures { prim_in kind.now ≡ Some result }
{
    match kind {
        Kind::Leaf(leaf) => leaf.prim,
        Kind::Enum(leaf, _) => leaf.prim,
        Kind::Set(prim, _) => *prim,
        Kind::Comp(_) => unreachable!(),
        Kind::Const(_) => unreachable!(),
    }
}
