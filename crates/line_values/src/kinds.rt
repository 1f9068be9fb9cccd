ghost use Rattle.std.specs.Prelude.{◌≡◌, option_map};
ghost use Rattle.json_data.specs.Trees.{data_of};
ghost use Rattle.sbe_types.specs.declared.kind.Kind.{Comp};
ghost use Rattle.line_values.specs.Refusals.{Gives};
ghost use Rattle.line_values.specs.Objects.{there_or};
ghost use Rattle.line_values.specs.Values.{lack as lack_in, composite_of, composite_in, kind_in, value_in};
ghost use Rattle.line_values.specs.Code.{object_members, member_list_names, member_list_read};

use crate::choices::{read_constant, read_enum, read_set};
use crate::leaves::{leaf_if_missing, read_leaf, value_if_missing};
use crate::names::Names;
use crate::objects::{find_in, refuse_unknown};
use crate::refusals::{JCode, LineFault, inside, refuse};
use json_data::{Json, Pair};
use lists::List;
use sbe_types::{Kind, Member, MemberList, Value, ValueList};
use std::alloc::Global;

/// The value for a missing field.
fn lack(alloc: Global, kind: &Kind) -> Result<Value, LineFault>
    ensures { Gives result (lack_in kind.now) }
{
    match kind {
        Kind::Leaf(leaf) => leaf_if_missing(alloc, leaf),
        Kind::Enum(leaf, _) => value_if_missing(alloc, leaf, Value::Null),
        Kind::Set(_, _) | Kind::Comp(_) => refuse(alloc, JCode::Shape, b""),
        Kind::Const(_) => Ok(Value::Const),
    }
}

/// Reads a value of a kind.
#[cycle(kind)]
#[tactic(auto, unfolding(crate::specs::Values::kind_in))]
fn read_kind(alloc: Global, kind: &Kind, found: &Json<'_>) -> Result<Value, LineFault>
    ensures { Gives result (kind_in kind.now (data_of found.now)) }
{
    match kind {
        Kind::Leaf(leaf) => read_leaf(alloc, leaf, found),
        Kind::Enum(leaf, names) => read_enum(alloc, leaf, names.as_slice(), found),
        Kind::Set(_, names) => read_set(alloc, names.as_slice(), found),
        Kind::Const(constant) => read_constant(alloc, constant, found),
        Kind::Comp(members) => read_composite(alloc, members, found),
    }
}

/// A composite: an object with the names of its members.
#[cycle(kind)]
fn read_composite(alloc: Global, members: &MemberList, found: &Json<'_>) -> Result<Value, LineFault>
    ensures { Gives result (kind_in (Comp members.now) (data_of found.now)) }
{
    read_object(alloc, members, found)
}

/// Reads an object with the names of members, as a composite.
#[cycle(kind)]
fn read_object(alloc: Global, members: &MemberList, found: &Json<'_>) -> Result<Value, LineFault>
    ensures { Gives result (composite_in (member_list_names members.now) (member_list_read members.now) (data_of found.now)) }
{
    match found.as_object() {
        None => refuse(alloc, JCode::Kind, b""),
        Some(object) => inside(
            alloc,
            b".",
            read_inner(alloc, members.as_slice(), Some(object)),
        ),
    }
}

/// Reads the contents of a composite's object.
#[cycle(kind)]
fn read_inner(
    alloc: Global,
    members: &[Member],
    object: Option<&[Pair<'_>]>,
) -> Result<Value, LineFault>
    ensures { Gives result (composite_of (member_list_names members.now) (member_list_read members.now) (object_members object.entry)) }
{
    refuse_unknown(alloc, &Names::Members(members), object)?;
    Ok(Value::Comp(read_members(alloc, members, object)?))
}

/// The values of a composite's members, in the schema's order.
#[cycle(kind)]
#[tactic(auto, unfolding(crate::specs::Code::member_list_read), using(crate::proofs::ListSteps::members_more))]
fn read_members(
    alloc: Global,
    members: &[Member],
    object: Option<&[Pair<'_>]>,
) -> Result<ValueList, LineFault>
    ensures { Gives result (member_list_read members.now (object_members object.entry)) }
{
    let mut out = List::new(alloc);
    for member in members {
        out.push(read_value(alloc, member.name.as_slice(), &member.kind, object)?)?;
    }
    Ok(out)
}

/// Reads the member of an object with this name, as a value of the kind.
#[cycle(kind)]
pub fn read_value(
    alloc: Global,
    name: &[u8],
    kind: &Kind,
    object: Option<&[Pair<'_>]>,
) -> Result<Value, LineFault>
    ensures { Gives result (value_in name.now kind.now (object_members object.entry)) }
{
    inside(alloc, name, read_there(alloc, kind, find_in(object, name)))
}

/// Reads a value, or gives the one for a missing field.
#[cycle(kind)]
fn read_there(alloc: Global, kind: &Kind, found: Option<&Json<'_>>) -> Result<Value, LineFault>
    ensures { Gives result (there_or (lack_in kind.now) (kind_in kind.now) (option_map (λ v. data_of v.now) found.entry)) }
{
    match found {
        None => lack(alloc, kind),
        Some(found) => read_kind(alloc, kind, found),
    }
}
