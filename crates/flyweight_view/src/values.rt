// The values of a block's fields.
ghost use Rattle.std.specs.Prelude.{◌≡◌, ◌<◌, length, slice_get, Some, IfSome, IfNone};
ghost use Rattle.sbe_types.specs.declared.kind.Kind.{Comp};
ghost use Rattle.std.specs.Option.{option_map, option_and_then, IsSome};
ghost use Rattle.sbe_types.specs.declared.message.Value.TheVariants.{Absent};
ghost use Rattle.schema_facts.specs.InOrder.{IsKindInOrder};
ghost use Rattle.field_values.specs.Reports.{all_elements, element_of, number_in, state_of, text_in};
ghost use Rattle.flyweight_view.specs.inner.Planned.{fields_of, typed_at, values_at, IsPlannedBlock};
ghost use Rattle.flyweight_view.specs.TypedBlocks.{typed_field, members_of};
ghost use Rattle.flyweight_view.specs.ShownIn.{IsShownIn};

use crate::plan::{Plan, Span, slot_of};
use field_values::{FieldState, element_in, number_in, state_in, text_in};
use sbe_types::{Kind, List, Member, Order};

/// The bytes of a field that is present, with its kind. A constant has none.
#[derive(Clone, Copy)]
pub struct FieldBytes<'a> {
    pub order: Order,
    pub kind: &'a Kind,
    pub bytes: &'a [u8],
}

/// Whether field `i` of a block has a value.
pub(crate) fn field_state(span: &Span<'_>, plan: &Plan<'_>, i: usize) -> FieldState
    requires seen { IsPlannedBlock span.now plan.now }
    requires field { i < length (fields_of plan.now) }
    ensures { option_map state_of (slice_get (values_at span.now plan.now) i) ≡ Some result }
{
    let slot = slot_of(span, plan, i);
    if !slot.alive {
        return FieldState::Absent;
    }
    state_in(span.mode.order, slot.kind, slot.bytes)
}

/// The number of field `i` of a block.
pub(crate) fn field_number(span: &Span<'_>, plan: &Plan<'_>, i: usize) -> i128
    requires seen { IsPlannedBlock span.now plan.now }
    requires field { i < length (fields_of plan.now) }
    requires number { IsSome (option_and_then number_in (slice_get (values_at span.now plan.now) i)) }
    ensures { option_and_then number_in (slice_get (values_at span.now plan.now) i) ≡ Some result }
{
    let slot = slot_of(span, plan, i);
    number_in(span.mode.order, slot.kind, slot.bytes)
}

/// The text of field `i` of a block.
pub(crate) fn field_text<'a>(span: &Span<'a>, plan: &Plan<'a>, i: usize) -> &'a [u8]
    requires seen { IsPlannedBlock span.now plan.now }
    requires field { i < length (fields_of plan.now) }
    requires text { IsSome (option_and_then text_in (slice_get (values_at span.now plan.now) i)) }
    ensures { option_and_then text_in (slice_get (values_at span.now plan.now) i) ≡ Some result.now }
{
    let slot = slot_of(span, plan, i);
    text_in(slot.bytes)
}

/// Element `j` of the array in field `i` of a block.
pub(crate) fn field_element(span: &Span<'_>, plan: &Plan<'_>, i: usize, j: usize) -> Option<i128>
    requires seen { IsPlannedBlock span.now plan.now }
    requires field { i < length (fields_of plan.now) }
    requires element { j < length (all_elements (slice_get (values_at span.now plan.now) i)) }
    ensures { slice_get (all_elements (slice_get (values_at span.now plan.now) i)) j ≡ Some (element_of result) }
{
    let slot = slot_of(span, plan, i);
    element_in(span.mode.order, slot.kind, slot.bytes, j)
}

/// The bytes of field `i` of a block, or `None` if it is absent.
#[inline(always)]
pub(crate) fn field_bytes<'a>(span: &Span<'a>, plan: &Plan<'a>, i: usize) -> Option<FieldBytes<'a>>
    requires seen { IsPlannedBlock span.now plan.now }
    requires field { i < length (fields_of plan.now) }
    ensures kind { IfSome result (λ f. option_map (λ p. p.kind) (slice_get (fields_of plan.now) i) ≡ Some f.kind.now) }
    ensures order { IfSome result (λ f. IsKindInOrder f.kind.now) }
    ensures shows { IfSome result (λ f. IsShownIn f (slice_get (values_at span.now plan.now) i)) }
    ensures absent { IfNone result (slice_get (values_at span.now plan.now) i ≡ Some Absent) }
{
    let slot = slot_of(span, plan, i);
    if !slot.alive {
        return None;
    }
    Some(FieldBytes {
        order: span.mode.order,
        kind: slot.kind,
        bytes: slot.bytes,
    })
}

/// The block of the members of field `i`, which is a composite.
pub(crate) fn composite_at<'a>(span: &Span<'a>, plan: &Plan<'a>, i: usize) -> (Span<'a>, Plan<'a>)
    requires seen { IsPlannedBlock span.now plan.now }
    requires field { i < length (fields_of plan.now) }
    requires composite { IsSome (typed_field (slice_get (fields_of plan.now) i) (slice_get (values_at span.now plan.now) i)) }
    ensures seen { IsPlannedBlock result.0 result.1 }
    ensures members { typed_field (slice_get (fields_of plan.now) i) (slice_get (values_at span.now plan.now) i) ≡ Some (typed_at result.0 result.1) }
{
    let slot = slot_of(span, plan, i);
    let members = members_of(slot.kind);
    let inside = Span {
        mode: span.mode,
        body: slot.bytes,
        at: 0,
        size: slot.bytes.len(),
    };
    (inside, Plan::Members(members))
}

/// The members of a composite.
fn members_of(kind: &Kind) -> &List<Member>
    requires { IsSome (members_of kind.now) }
    ensures { kind.now ≡ Comp result.now }
{
    match kind {
        Kind::Comp(members) => members,
        Kind::Leaf(_) => unreachable!(),
        Kind::Enum(_, _) => unreachable!(),
        Kind::Set(_, _) => unreachable!(),
        Kind::Const(_) => unreachable!(),
    }
}
