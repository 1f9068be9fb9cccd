// The bytes of values that fit their kinds.
ghost use Rattle.std.specs.Prelude.{◌≡◌, ◌≤◌, ◌+◌, ◌*◌, None, Some, length, take};
ghost use Rattle.sbe_types.specs.declared.kind.Kind.{Comp};
ghost use Rattle.sbe_types.specs.declared.message.Value.TheVariants.{Comp as CompValue};
ghost use Rattle.sbe_types.specs.Places.{begin_of as begins_at, end_past, width};
ghost use Rattle.sbe_types.specs.Wire.{wire_bytes};
ghost use Rattle.sbe_wire.specs.Misfit.{value_misfit};
ghost use Rattle.sbe_wire.specs.Placed.{BeginsBehind};
ghost use Rattle.schema_facts.specs.InOrder.{IsKindInOrder};
ghost use Rattle.schema_facts.specs.Measured.{EndsWithin};
ghost use Rattle.kind_bytes.specs.Members.{followed_by, member_bytes};

use crate::judge::values_in;
use field_bytes::put_value;
use flat_rows::{begin_of, width_of};
use sbe_types::{Kind, List, Member, Order, Value, ValueList};

/// Writes a value that fits its kind, with zeros where a composite has no member. Requires as many bytes as the kind is
/// wide.
#[cycle(kind)]
pub fn put_kind(order: Order, kind: &Kind, v: &Value, out: &mut [u8])
    requires ready { IsKindInOrder kind.now }
    requires wide { length out.old ≡ width kind.now }
    requires fits { value_misfit kind.now v.now ≡ None }
    ensures { wire_bytes order kind.now v.now ≡ Some out.new }
{
    match kind {
        Kind::Leaf(_) => put_value(order, kind, v, out),
        Kind::Enum(_, _) => put_value(order, kind, v, out),
        Kind::Set(_, _) => put_value(order, kind, v, out),
        Kind::Comp(members) => put_composite(order, members, v, out),
        Kind::Const(_) => {}
    }
}

/// Writes a value that fits a composite.
#[cycle(kind)]
#[tactic(auto, using(crate::proofs::MemberBytes::never_none, crate::proofs::MemberBytes::bytes_some, crate::proofs::Composites::comp_some))]
fn put_composite(order: Order, members: &List<Member>, v: &Value, out: &mut [u8])
    requires ready { IsKindInOrder (Comp members.now) }
    requires wide { length out.old ≡ width (Comp members.now) }
    requires fits { value_misfit (Comp members.now) v.now ≡ None }
    ensures { wire_bytes order (Comp members.now) v.now ≡ Some out.new }
{
    match values_in(v) {
        None => unreachable!(),
        Some(values) => put_members(order, members, values, out),
    }
}

/// Writes values that fit the members of a composite, one after another.
#[cycle(kind)]
fn put_members(order: Order, members: &List<Member>, values: &ValueList, out: &mut [u8])
    requires ready { IsKindInOrder (Comp members.now) }
    requires wide { length out.old ≡ width (Comp members.now) }
    requires fits { value_misfit (Comp members.now) (CompValue values.now) ≡ None }
    ensures { wire_bytes order (Comp members.now) (CompValue values.now) ≡ Some out.new }
{
    let mut end = 0u32;
    for i in 0..members.len() {
        end = put_member(order, members.at(i), end, values.at(i), out);
    }
}

/// Writes a value that fits a member after members that end at `end`, and returns where it ends.
#[cycle(kind)]
fn put_member(order: Order, member: &Member, end: u32, v: &Value, out: &mut [u8]) -> u32
    requires ready { IsKindInOrder member.now.kind }
    requires begins { BeginsBehind end member.now.offset member.now.kind }
    requires narrow { EndsWithin end member.now.offset member.now.kind }
    requires within { end_past end member.now.offset member.now.kind ≤ length out.old }
    requires fits { value_misfit member.now.kind v.now ≡ None }
    ensures bytes { followed_by (take end out.old) (member_bytes order end member.now v.now) ≡ Some (take result out.new) }
    ensures as_many { length out.new ≡ length out.old }
    ensures end { result ≡ end_past end member.now.offset member.now.kind }
{
    match &member.kind {
        Kind::Const(_) => end,
        Kind::Leaf(_) | Kind::Enum(_, _) | Kind::Set(_, _) | Kind::Comp(_) => {
            let begin = begin_of(end, member.offset);
            let after = begin + width_of(&member.kind);
            out[end as usize..begin as usize].fill(0);
            put_kind(
                order,
                &member.kind,
                v,
                &mut out[begin as usize..after as usize],
            );
            after
        }
    }
}
