//! Absent values, and whether empty data and empty groups are allowed.

ghost use Rattle.std.specs.Prelude.{◌≡◌, codes, pos};
ghost use Rattle.sbe_types.specs.Shown.{admits};
ghost use Rattle.sbe_wire.specs.Named.{is_admitted};
ghost use Rattle.regrade_laws.specs.Counts.{is_absent};
ghost use Rattle.regrade.specs.Each.{kind_admits_none, named_admits_none};

use lists::List;
use sbe_types::{Kind, Leaf, Member, Value};

/// Whether the value of a field is absent.
pub(crate) fn is_absent(value: &Value) -> bool
    ensures { result ≡ is_absent value.now }
{
    match value {
        Value::Absent => true,
        Value::Num(_)
        | Value::Null
        | Value::Text(_)
        | Value::Nums(_)
        | Value::Enum(_)
        | Value::Set(_)
        | Value::Comp(_)
        | Value::Const => false,
    }
}

/// Whether data may be empty, given its length number.
pub(crate) fn admits_none(length: &Leaf) -> bool
    ensures { result ≡ admits length.now (pos 0) }
{
    length.admits(0)
}

/// Whether a group may be empty, given the members of its dimension.
pub(crate) fn admits_no_entries(dim: &List<Member>) -> bool
    ensures { result ≡ is_admitted dim.now (codes "numInGroup") 0 }
{
    named_admits_none(dim, "numInGroup".as_bytes())
}

/// Whether the first member with this name may be 0.
fn named_admits_none(members: &List<Member>, name: &[u8]) -> bool
    ensures { result ≡ named_admits_none name.now members.now }
{
    for member in members.as_slice() {
        if member.name.as_slice() == name {
            return kind_admits_none(&member.kind);
        }
    }
    false
}

/// Whether a number of this kind may be 0. Only a number can.
fn kind_admits_none(kind: &Kind) -> bool
    ensures { result ≡ kind_admits_none kind.now }
{
    match kind {
        Kind::Leaf(leaf) => admits_none(leaf),
        Kind::Enum(_, _) | Kind::Set(_, _) | Kind::Comp(_) | Kind::Const(_) => false,
    }
}
