// Views of blocks.
ghost use Rattle.std.specs.Prelude.{◌≡◌, ◌<◌, length, map, slice_get, Some, IfSome, IfNone};
ghost use Rattle.std.specs.Option.{option_map, option_and_then, IsSome};
ghost use Rattle.sbe_types.specs.declared.message.Value.TheVariants.{Absent};
ghost use Rattle.schema_facts.specs.CheckedLevels.{group_name};
ghost use Rattle.schema_facts.specs.InOrder.{IsKindInOrder};
ghost use Rattle.field_values.specs.Reports.{all_elements, element_of, number_in, state_of, text_in};
ghost use Rattle.flyweight_view.specs.ByTable.{IsTableBlock};
ghost use Rattle.flyweight_view.specs.TypedBlocks.{typed_groups, bytes_in, typed_field, typed_group};
ghost use Rattle.flyweight_view.specs.ShownIn.{IsShownIn};
ghost use Rattle.flyweight_view.specs.inner.Planned.{typed_at, IsPlannedBlock};

use crate::by_table::{TableBlock, table_block};
use crate::entries::EntriesView;
use crate::groups::{GroupsView, group_of, groups_in};
use crate::parts::{PartsView, data_of, parts_in};
use crate::plan::{
    Plan, Span, count_fields, count_groups, count_parts, kind_of, name_of, name_of_data,
    name_of_group,
};
use crate::values::{
    FieldBytes, composite_at, field_bytes, field_element, field_number, field_state, field_text,
};
use field_values::FieldState;
use sbe_types::Kind;
use std::marker::Model;

/// A block of a message that lies in a body: a root, an entry, or the members of a composite. It borrows from the body.
/// Its parts are counted from 0, in the schema's order.
#[derive(Drop)]
pub struct BlockView<'a> {
    span: Span<'a>,
    plan: Plan<'a>,
}

impl<'a> Model for BlockView<'a> {
    ghost use Rattle.sbe_types.specs.contracts.kind.Kind as kinds;
    ghost use Rattle.sbe_types.specs.contracts.schema.Group as groups;
    ghost use Rattle.sbe_types.specs.contracts.schema.Level as levels;
    ghost use Rattle.sbe_types.specs.contracts.message.Value as values;
    ghost use Rattle.sbe_types.specs.contracts.message.Block as blocks;
    ghost use Rattle.std.specs.Coded.{codes};
    ghost use Rattle.flyweight_view.specs.TypedBlocks.{TypedBlock};

    ghost Value = { TypedBlock };

    ghost coded = { Prim.hlevel (codes, kinds.the_row.coded, groups.the_row.coded, levels.the_row.coded, values.the_row.coded, blocks.the_row.coded) };

    ghost use Rattle.flyweight_view.specs.inner.Blocks.{typed_of, IsShown};

    ghost view = { typed_of };

    ghost invariant = { IsShown };
}

impl<'a> BlockView<'a> {
    /// The block at this location.
    pub(crate) fn new(span: Span<'a>, plan: Plan<'a>) -> BlockView<'a>
        requires { IsPlannedBlock span plan }
        ensures { result ≡ typed_at span.entry plan.entry }
    {
        BlockView { span, plan }
    }

    /// Another view of the same block.
    #[inline(always)]
    pub fn again(&self) -> BlockView<'a>
        ensures { result ≡ self.now }
    {
        BlockView {
            span: self.span,
            plan: self.plan,
        }
    }

    /// The numbers of fields, groups and data parts. A composite has its members as fields, and no groups or data.
    #[inline(always)]
    pub fn counts(&self) -> (usize, usize, usize)
        ensures { result ≡ (length self.now.fields, length self.now.groups, length self.now.parts) }
    {
        (
            count_fields(&self.plan),
            count_groups(&self.plan),
            count_parts(&self.plan),
        )
    }

    /// The name of field `i`. Requires a field in range.
    #[inline(always)]
    pub fn name(&self, i: usize) -> &'a [u8]
        requires { i < length self.now.fields }
        ensures { option_map (λ f. f.name) (slice_get self.now.fields i) ≡ Some result.now }
    {
        name_of(&self.plan, i)
    }

    /// The kind of field `i`. Requires a field in range.
    pub fn kind(&self, i: usize) -> &'a Kind
        requires { i < length self.now.fields }
        ensures { option_map (λ f. f.kind) (slice_get self.now.fields i) ≡ Some result.now }
    {
        kind_of(&self.plan, i)
    }

    /// The name of group `i`. Requires a group in range.
    pub fn group_name(&self, i: usize) -> &'a [u8]
        requires { i < length self.now.groups }
        ensures { option_map group_name (slice_get self.now.groups i) ≡ Some result.now }
    {
        name_of_group(&self.plan, i)
    }

    /// The name of data part `i`. Requires a data part in range.
    pub fn data_name(&self, i: usize) -> &'a [u8]
        requires { i < length self.now.parts }
        ensures { option_map (λ d. d.name) (slice_get self.now.parts i) ≡ Some result.now }
    {
        name_of_data(&self.plan, i)
    }

    /// Whether field `i` has a value. Requires a field in range.
    pub fn state(&self, i: usize) -> FieldState
        requires { i < length self.now.fields }
        ensures { option_map state_of (slice_get self.now.block.fields i) ≡ Some result }
    {
        field_state(&self.span, &self.plan, i)
    }

    /// The number of field `i`. Requires a field with a value that is a single number, an enum or a set.
    pub fn num(&self, i: usize) -> i128
        requires field { i < length self.now.fields }
        requires number { IsSome (option_and_then number_in (slice_get self.now.block.fields i)) }
        ensures { option_and_then number_in (slice_get self.now.block.fields i) ≡ Some result }
    {
        field_number(&self.span, &self.plan, i)
    }

    /// The text of field `i`: its bytes before the first 00. Requires a field with a value that is a text.
    pub fn text(&self, i: usize) -> &'a [u8]
        requires field { i < length self.now.fields }
        requires text { IsSome (option_and_then text_in (slice_get self.now.block.fields i)) }
        ensures { option_and_then text_in (slice_get self.now.block.fields i) ≡ Some result.now }
    {
        field_text(&self.span, &self.plan, i)
    }

    /// Element `j` of field `i`, or `None` if it is null. Requires a field with a value that is an array of more than
    /// `j` elements.
    pub fn elem(&self, i: usize, j: usize) -> Option<i128>
        requires field { i < length self.now.fields }
        requires element { j < length (all_elements (slice_get self.now.block.fields i)) }
        ensures { slice_get (all_elements (slice_get self.now.block.fields i)) j ≡ Some (element_of result) }
    {
        field_element(&self.span, &self.plan, i, j)
    }

    /// Field `i` with its bytes as they are on the wire, or `None` if it is absent. Requires a field in range.
    #[inline(always)]
    pub fn field(&self, i: usize) -> Option<FieldBytes<'a>>
        requires { i < length self.now.fields }
        ensures kind { IfSome result (λ f. option_map (λ p. p.kind) (slice_get self.now.fields i) ≡ Some f.kind.now) }
        ensures order { IfSome result (λ f. IsKindInOrder f.kind.now) }
        ensures shows { IfSome result (λ f. IsShownIn f (slice_get self.now.block.fields i)) }
        ensures absent { IfNone result (slice_get self.now.block.fields i ≡ Some Absent) }
    {
        field_bytes(&self.span, &self.plan, i)
    }

    /// Its bytes with the table of its fields, if it is a block of a level, has every field, and its numbers are
    /// little-endian.
    #[inline(always)]
    pub fn by_table(&self) -> Option<TableBlock<'a>>
        ensures { IfSome result (λ b. IsTableBlock b self.now) }
    {
        table_block(&self.span, &self.plan)
    }

    /// The members of field `i`. Requires a field that is present and is a composite.
    pub fn comp(&self, i: usize) -> BlockView<'a>
        requires field { i < length self.now.fields }
        requires composite { IsSome (typed_field (slice_get self.now.fields i) (slice_get self.now.block.fields i)) }
        ensures { typed_field (slice_get self.now.fields i) (slice_get self.now.block.fields i) ≡ Some result }
    {
        let (span, plan) = composite_at(&self.span, &self.plan, i);
        BlockView { span, plan }
    }

    /// The entries of group `i`, or `None` if it is absent. The groups before it are skipped. Requires a group in
    /// range.
    pub fn group(&self, i: usize) -> Option<EntriesView<'a>>
        requires { i < length self.now.groups }
        ensures { typed_group (slice_get self.now.groups i) (slice_get self.now.block.groups i) ≡ Some result }
    {
        group_of(&self.span, &self.plan, i)
    }

    /// The bytes of data part `i`, or `None` if it is absent. What precedes it is skipped. Requires a data part in
    /// range.
    pub fn data(&self, i: usize) -> Option<&'a [u8]>
        requires { i < length self.now.parts }
        ensures { option_map bytes_in (slice_get self.now.block.parts i) ≡ Some (option_map (λ b. b.now) result) }
    {
        data_of(&self.span, &self.plan, i)
    }

    /// Its groups in the schema's order. Each is located once, from the end of the previous one.
    #[tactic(auto, using(crate::proofs::TailsSeen::all_groups))]
    pub fn groups(&self) -> GroupsView<'a>
        ensures seen { result ≡ typed_groups self.now.groups self.now.block.groups }
        ensures count { length result ≡ length self.now.groups }
    {
        groups_in(&self.span, &self.plan)
    }

    /// Its data parts in the schema's order.
    #[inline(always)]
    #[tactic(auto, using(crate::proofs::TailsSeen::all_parts))]
    pub fn parts(&self) -> PartsView<'a>
        ensures seen { result ≡ map bytes_in self.now.block.parts }
        ensures count { length result ≡ length self.now.parts }
    {
        parts_in(&self.span, &self.plan)
    }
}
