// Views of the groups of a block.
ghost use Rattle.std.specs.Prelude.{◌≡◌, ◌<◌, [], ◌∷◌, length, slice_get, Some, IfSome};
ghost use Rattle.std.specs.Option.{option_map};
ghost use Rattle.sbe_types.specs.declared.message.Block.{out-Block};
ghost use Rattle.flyweight_view.specs.inner.Groups.{groups_left, StandThere};
ghost use Rattle.flyweight_view.specs.inner.Layers.{typed_entries, LieThere};
ghost use Rattle.body_walk.specs.inner.Layers.{IsLayer};
ghost use Rattle.flyweight_view.specs.TypedBlocks.{typed_groups, typed_group};
ghost use Rattle.flyweight_view.specs.inner.Planned.{block_of, planned_block, groups_of, IsPlannedBlock};

use crate::ends::{GroupCursor, open_group};
use crate::entries::EntriesView;
use crate::plan::{Plan, Span};
use body_walk::{Layer, first_child};
use group_codec::Dim;
use std::marker::Model;

/// The remaining groups of a block. Each is located from the end of the previous one. It borrows from the body.
#[derive(Drop)]
pub struct GroupsView<'a> {
    /// `None` if there are no groups, as in a composite.
    layer: Option<Layer<'a>>,
    cursor: GroupCursor,
}

impl<'a> Model for GroupsView<'a> {
    ghost use Rattle.std.specs.Prelude.{List, Option};
    ghost use Rattle.std.specs.Coded.{codes};
    ghost use Rattle.sbe_types.specs.contracts.kind.Kind as kinds;
    ghost use Rattle.sbe_types.specs.contracts.schema.Group as groups;
    ghost use Rattle.sbe_types.specs.contracts.schema.Level as levels;
    ghost use Rattle.sbe_types.specs.contracts.message.Value as values;
    ghost use Rattle.sbe_types.specs.contracts.message.Block as blocks;
    ghost use Rattle.flyweight_view.specs.TypedBlocks.{TypedBlock};

    ghost Value = { List (Option (List TypedBlock)) };

    ghost coded = { Prim.hlevel (codes, kinds.the_row.coded, groups.the_row.coded, levels.the_row.coded, values.the_row.coded, blocks.the_row.coded) };

    ghost use Rattle.flyweight_view.specs.inner.Groups.{groups_of_view, AreGroups};

    ghost view = { groups_of_view };

    ghost invariant = { AreGroups };
}

impl<'a> GroupsView<'a> {
    /// No groups.
    fn empty() -> GroupsView<'a>
        ensures { result ≡ [] }
    {
        GroupsView {
            layer: None,
            cursor: GroupCursor {
                next: 0,
                child: 0,
                at: 0,
            },
        }
    }

    /// The groups of a level from the next one on.
    fn over(layer: Layer<'a>, cursor: GroupCursor) -> GroupsView<'a>
        requires layer { IsLayer layer }
        requires stand { StandThere layer cursor }
        ensures { result ≡ groups_left layer.entry cursor }
    {
        GroupsView {
            layer: Some(layer),
            cursor,
        }
    }

    /// The next group: its entries, or `None` if it is absent. Requires a remaining group.
    #[inline(always)]
    pub fn next_group(&mut self) -> Option<EntriesView<'a>>
        requires { 0 < length self.old }
        ensures { self.old ≡ result ∷ self.new }
    {
        match self.layer {
            Some(layer) => {
                let step = open_group(&layer, self.cursor);
                self.cursor = step.after;
                entries_over(&step.inner, step.dim)
            }
            None => unreachable!(),
        }
    }
}

/// The groups of a block.
pub(crate) fn groups_in<'a>(span: &Span<'a>, plan: &Plan<'a>) -> GroupsView<'a>
    requires { IsPlannedBlock span.now plan.now }
    ensures { result ≡ typed_groups (groups_of plan.now) (out-Block (block_of (planned_block span.now plan.now))).groups }
{
    match *plan {
        Plan::Level(layout, number, level) => {
            if level.groups.is_empty() {
                return GroupsView::empty();
            }
            let layer = Layer {
                layout,
                number,
                level,
                mode: span.mode,
                body: span.body,
            };
            let cursor = GroupCursor {
                next: 0,
                child: first_child(layout, number),
                at: span.at + span.size,
            };
            GroupsView::over(layer, cursor)
        }
        Plan::Members(_) => GroupsView::empty(),
    }
}

/// Group `i` of a block: its entries, or `None` if it is absent. The groups before it are skipped.
pub(crate) fn group_of<'a>(span: &Span<'a>, plan: &Plan<'a>, i: usize) -> Option<EntriesView<'a>>
    requires seen { IsPlannedBlock span.now plan.now }
    requires group { i < length (groups_of plan.now) }
    ensures { typed_group (slice_get (groups_of plan.now) i) (slice_get (out-Block (block_of (planned_block span.now plan.now))).groups i) ≡ Some result }
{
    let mut groups = groups_in(span, plan);
    for _ in 0..i {
        let _passed = groups.next_group();
    }
    groups.next_group()
}

/// The entries of a group, given its dimension.
#[inline(always)]
fn entries_over<'a>(layer: &Layer<'a>, dim: Option<Dim>) -> Option<EntriesView<'a>>
    requires layer { IsLayer layer.now }
    requires lie { IfSome dim (λ d. LieThere layer.now d) }
    ensures { result ≡ option_map (typed_entries layer.now) dim }
{
    match dim {
        Some(dim) => Some(EntriesView::new(*layer, dim)),
        None => None,
    }
}
