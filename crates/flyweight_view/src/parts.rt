// Views of the data parts of a block.
ghost use Rattle.std.specs.Prelude.{◌≡◌, ◌<◌, [], ◌∷◌, length, map, slice_get, Some};
ghost use Rattle.std.specs.Option.{option_map};
ghost use Rattle.sbe_types.specs.declared.message.Block.{out-Block};
ghost use Rattle.body_walk.specs.inner.Layers.{IsLayer};
ghost use Rattle.flyweight_view.specs.TypedBlocks.{bytes_in};
ghost use Rattle.flyweight_view.specs.inner.Parts.{parts_left, LineUp};
ghost use Rattle.flyweight_view.specs.inner.Planned.{block_of, planned_block, parts_of, IsPlannedBlock};

use crate::ends::{GroupCursor, groups_end};
use crate::plan::{Plan, Span};
use crate::ranges::{behind_range, next_range, range_of};
use body_walk::{Layer, first_child};
use std::marker::Model;

/// The remaining data parts of a block. Each is located from the end of the previous one. It borrows from the body.
#[derive(Drop)]
pub struct PartsView<'a> {
    /// `None` if there is no data, as in a composite.
    layer: Option<Layer<'a>>,
    next: usize,
    at: usize,
}

impl<'a> Model for PartsView<'a> {
    ghost use Rattle.std.specs.Prelude.{ℕ, List, Option};
    ghost use Rattle.std.specs.Coded.{codes};

    ghost Value = { List (Option (List ℕ)) };

    ghost coded = { Prim.hlevel codes };

    ghost use Rattle.flyweight_view.specs.inner.Parts.{parts_of_view, AreParts};

    ghost view = { parts_of_view };

    ghost invariant = { AreParts };
}

impl<'a> PartsView<'a> {
    /// No data parts.
    fn empty() -> PartsView<'a>
        ensures { result ≡ [] }
    {
        PartsView {
            layer: None,
            next: 0,
            at: 0,
        }
    }

    /// The data parts of a level, the first of which begins at an offset.
    fn over(layer: Layer<'a>, at: usize) -> PartsView<'a>
        requires layer { IsLayer layer }
        requires line { LineUp layer 0 at }
        ensures { result ≡ parts_left layer.entry 0 at }
    {
        PartsView {
            layer: Some(layer),
            next: 0,
            at,
        }
    }

    /// The next data part: its bytes, or `None` if it is absent. Requires a remaining data part.
    #[inline(always)]
    pub fn next_part(&mut self) -> Option<&'a [u8]>
        requires { 0 < length self.old }
        ensures { self.old ≡ option_map (λ b. b.now) result ∷ self.new }
    {
        match self.layer {
            Some(layer) => {
                let range = next_range(&layer, self.next, self.at);
                self.at = behind_range(range, self.at);
                self.next += 1;
                range_of(layer.body, range)
            }
            None => unreachable!(),
        }
    }
}

/// The data parts of a block.
#[inline(always)]
pub(crate) fn parts_in<'a>(span: &Span<'a>, plan: &Plan<'a>) -> PartsView<'a>
    requires { IsPlannedBlock span.now plan.now }
    ensures { result ≡ map bytes_in (out-Block (block_of (planned_block span.now plan.now))).parts }
{
    match *plan {
        Plan::Level(layout, number, level) => {
            if level.parts.is_empty() {
                return PartsView::empty();
            }
            let layer = Layer {
                layout,
                number,
                level,
                mode: span.mode,
                body: span.body,
            };
            let cursor = GroupCursor {
                next: 0,
                child: first_child(layout, number),
                at: span.at + span.size,
            };
            let at = groups_end(&layer, cursor);
            PartsView::over(layer, at)
        }
        Plan::Members(_) => PartsView::empty(),
    }
}

/// Data part `i` of a block: its bytes, or `None` if it is absent. What precedes it is skipped.
pub(crate) fn data_of<'a>(span: &Span<'a>, plan: &Plan<'a>, i: usize) -> Option<&'a [u8]>
    requires seen { IsPlannedBlock span.now plan.now }
    requires part { i < length (parts_of plan.now) }
    ensures { option_map bytes_in (slice_get (out-Block (block_of (planned_block span.now plan.now))).parts i) ≡ Some (option_map (λ b. b.now) result) }
{
    let mut parts = parts_in(span, plan);
    for _ in 0..i {
        let _passed = parts.next_part();
    }
    parts.next_part()
}
