// The members of composites.
ghost use Rattle.std.specs.Prelude.{◌≡◌, ◌<◌, Bool, length};
ghost use Rattle.sbe_types.specs.declared.kind.Kind.{Comp};
ghost use Rattle.sbe_types.specs.declared.message.Value.{Value};
ghost use Rattle.sbe_types.specs.Places.{is_const, width};
ghost use Rattle.sbe_types.specs.Shows.{Shows};
ghost use Rattle.schema_facts.specs.InOrder.{IsKindInOrder};
ghost use Rattle.bridge_rules.specs.Members.{mantissa_in, members_in};
ghost use Rattle.message_walk.specs.Rows.{field_of};
ghost use Rattle.value_texts.specs.FieldViews.{is_composite, is_composite_field, members_seen, nth_number, CanReadAny, HasMembers, IsSeenOf};

use crate::seen::{field_at, kind_number, number_of};
use flat_rows::{begin_of, width_of};
use flyweight_view::{BlockView, FieldBytes};
use sbe_types::{Kind, List, Member, Order};

/// The number of the first member of a field, or `None` if it is null or isn't a number, or the field isn't a
/// composite.
#[inline(always)]
pub(crate) fn mantissa_of(field: Option<FieldBytes<'_>>) -> Option<i128>
    requires { CanReadAny field }
    ensures { (v : Value) → IsSeenOf field.entry v → mantissa_in v ≡ result }
{
    match field {
        None => None,
        Some(field) => kind_mantissa(field.order, field.kind, field.bytes),
    }
}

/// The same for the bytes of a kind.
#[inline(always)]
fn kind_mantissa(order: Order, kind: &Kind, bytes: &[u8]) -> Option<i128>
    requires ready { IsKindInOrder kind.now }
    requires wide { length bytes.now ≡ width kind.now }
    ensures { (known : Bool) (v : Value) → Shows order known kind.now v bytes.now → mantissa_in v ≡ result }
{
    match kind {
        Kind::Comp(members) => first_number(order, members, bytes),
        Kind::Leaf(_) => None,
        Kind::Enum(_, _) => None,
        Kind::Set(_, _) => None,
        Kind::Const(_) => None,
    }
}

/// The same for the bytes of a composite.
#[inline(always)]
fn first_number(order: Order, members: &List<Member>, bytes: &[u8]) -> Option<i128>
    requires ready { IsKindInOrder (Comp members.now) }
    requires wide { length bytes.now ≡ width (Comp members.now) }
    ensures { (known : Bool) (v : Value) → Shows order known (Comp members.now) v bytes.now → mantissa_in v ≡ result }
{
    if members.is_empty() {
        return None;
    }
    let member = members.at(0);
    if is_constant(&member.kind) {
        return None;
    }
    let begin = begin_of(0, member.offset) as usize;
    let wide = width_of(&member.kind) as usize;
    kind_number(order, &member.kind, &bytes[begin..begin + wide])
}

/// Whether a kind is a constant.
#[inline(always)]
fn is_constant(kind: &Kind) -> bool
    ensures { result ≡ is_const kind.now }
{
    match kind {
        Kind::Const(_) => true,
        Kind::Leaf(_) | Kind::Enum(_, _) | Kind::Set(_, _) | Kind::Comp(_) => false,
    }
}

/// The members of a field, or `None` if it is absent or isn't a composite. Requires a field in range.
pub(crate) fn members_at<'a>(block: &BlockView<'a>, number: usize) -> Option<BlockView<'a>>
    requires { number < length block.now.fields }
    ensures members { members_in (field_of block.now number) ≡ members_seen result }
    ensures same { HasMembers result }
{
    let found = block.field(number);
    if is_composite(found) {
        return Some(block.comp(number));
    }
    None
}

/// Whether a field is present and a composite.
fn is_composite(field: Option<FieldBytes<'_>>) -> bool
    ensures { result ≡ is_composite_field field.entry }
{
    match field {
        None => false,
        Some(field) => is_composite_kind(field.kind),
    }
}

fn is_composite_kind(kind: &Kind) -> bool
    ensures { result ≡ is_composite kind.now }
{
    match kind {
        Kind::Comp(_) => true,
        Kind::Leaf(_) => false,
        Kind::Enum(_, _) => false,
        Kind::Set(_, _) => false,
        Kind::Const(_) => false,
    }
}

/// The number of a member, or `None` if it is null or there is no such member.
pub(crate) fn member_number(members: &Option<BlockView<'_>>, i: usize) -> Option<i128>
    requires { HasMembers members.now }
    ensures { nth_number i (members_seen members.now) ≡ result }
{
    match members {
        None => None,
        Some(block) => {
            let (count, _, _) = block.counts();
            if i >= count {
                return None;
            }
            number_of(field_at(block, i))
        }
    }
}

/// How many members there are.
pub(crate) fn count_members(members: &Option<BlockView<'_>>) -> usize
    requires { HasMembers members.now }
    ensures { result ≡ length (members_seen members.now) }
{
    match members {
        None => 0,
        Some(block) => {
            let (count, _, _) = block.counts();
            count
        }
    }
}
