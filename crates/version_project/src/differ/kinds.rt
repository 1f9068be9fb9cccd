// Whether kinds are equal.
ghost use Rattle.std.specs.Prelude.{◌≡◌};
ghost use Rattle.version_laws.specs.Same.{same_kind, same_members};
ghost use Rattle.version_project.specs.Pairwise.{all_alike, is_member};

use crate::differ::leaves::{
    is_same_constant, is_same_leaf, is_same_name, is_same_offset, is_same_prim, lists_too,
};
use lists::List;
use sbe_types::{Kind, Member};

/// Whether two kinds are equal. If new may list more, its enums and sets may have further values.
#[cycle(same_kinds)]
pub(crate) fn is_same_kind(more: bool, old: &Kind, new: &Kind) -> bool
    ensures { result ≡ same_kind more old.now new.now }
{
    match old {
        Kind::Leaf(leaf) => match new {
            Kind::Leaf(other) => is_same_leaf(leaf, other),
            Kind::Enum(_, _) | Kind::Set(_, _) | Kind::Comp(_) | Kind::Const(_) => false,
        },
        Kind::Enum(leaf, names) => match new {
            Kind::Enum(other, others) => is_same_leaf(leaf, other)
                && lists_too(more, names, others),
            Kind::Leaf(_) | Kind::Set(_, _) | Kind::Comp(_) | Kind::Const(_) => false,
        },
        Kind::Set(prim, names) => match new {
            Kind::Set(other, others) => is_same_prim(*prim, *other)
                && lists_too(more, names, others),
            Kind::Leaf(_) | Kind::Enum(_, _) | Kind::Comp(_) | Kind::Const(_) => false,
        },
        Kind::Comp(members) => match new {
            Kind::Comp(others) => are_same_members(more, members, others),
            Kind::Leaf(_) | Kind::Enum(_, _) | Kind::Set(_, _) | Kind::Const(_) => false,
        },
        Kind::Const(value) => match new {
            Kind::Const(other) => is_same_constant(value, other),
            Kind::Leaf(_) | Kind::Enum(_, _) | Kind::Set(_, _) | Kind::Comp(_) => false,
        },
    }
}

/// Whether two lists of members are equal.
#[cycle(same_kinds)]
fn are_same_members(more: bool, old: &List<Member>, new: &List<Member>) -> bool
    ensures { result ≡ all_alike (is_member more) old.now new.now }
{
    if old.len() != new.len() {
        return false;
    }
    for i in 0..old.len() {
        if !is_same_member(more, old.at(i), new.at(i)) {
            return false;
        }
    }
    true
}

#[cycle(same_kinds)]
fn is_same_member(more: bool, old: &Member, new: &Member) -> bool
    ensures { result ≡ is_member more old.now new.now }
{
    is_same_name(old.name.as_slice(), new.name.as_slice())
        && is_same_offset(old.offset, new.offset)
        && is_same_kind(more, &old.kind, &new.kind)
}

/// Whether the members of two dimensions are equal.
pub(crate) fn is_same_dimension(old: &List<Member>, new: &List<Member>) -> bool
    ensures { result ≡ same_members old.now new.now }
{
    are_same_members(false, old, new)
}
