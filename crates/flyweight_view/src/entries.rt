// Views of the entries of a group.
ghost use Rattle.std.specs.Prelude.{◌≡◌, ◌<◌, length, drop, IfSome, IfNone};
ghost use Rattle.flyweight_view.specs.ByTable.{TakesTable};
ghost use Rattle.body_walk.specs.inner.Cursor.{entries_read};
ghost use Rattle.flyweight_view.specs.inner.Layers.{typed_entries, LieThere};
ghost use Rattle.body_walk.specs.inner.Layers.{IsLayer};
ghost use Rattle.flyweight_view.specs.inner.Planned.{block_of};
ghost use Rattle.flyweight_view.specs.TypedBlocks.{typed_level};

use crate::block::BlockView;
use crate::by_table::TableBlock;
use crate::ends::{flat_behind, others_of};
use crate::plan::{Plan, Span};
use body_walk::{Layer, is_flat};
use group_codec::Dim;
use std::marker::Model;

/// The remaining entries of a group. Each is located from the end of the previous one. It borrows from the body.
#[derive(Drop)]
pub struct EntriesView<'a> {
    layer: Layer<'a>,
    left: Dim,
}

impl<'a> Model for EntriesView<'a> {
    ghost use Rattle.std.specs.Prelude.{List};
    ghost use Rattle.std.specs.Coded.{codes};
    ghost use Rattle.sbe_types.specs.contracts.kind.Kind as kinds;
    ghost use Rattle.sbe_types.specs.contracts.schema.Group as groups;
    ghost use Rattle.sbe_types.specs.contracts.schema.Level as levels;
    ghost use Rattle.sbe_types.specs.contracts.message.Value as values;
    ghost use Rattle.sbe_types.specs.contracts.message.Block as blocks;
    ghost use Rattle.flyweight_view.specs.TypedBlocks.{TypedBlock};

    ghost Value = { List TypedBlock };

    ghost coded = { Prim.hlevel (codes, kinds.the_row.coded, groups.the_row.coded, levels.the_row.coded, values.the_row.coded, blocks.the_row.coded) };

    ghost use Rattle.flyweight_view.specs.inner.Entries.{entries_of, AreEntries};

    ghost view = { entries_of };

    ghost invariant = { AreEntries };
}

impl<'a> EntriesView<'a> {
    /// The entries at this location.
    pub(crate) fn new(layer: Layer<'a>, left: Dim) -> EntriesView<'a>
        requires layer { IsLayer layer }
        requires lie { LieThere layer left }
        ensures { result ≡ typed_entries layer.entry left }
    {
        EntriesView { layer, left }
    }

    /// The number of remaining entries.
    pub fn len(&self) -> usize
        ensures { result ≡ length self.now }
    {
        self.left.count as usize
    }

    /// Takes the next entry as a block with the table of its fields, if the level has neither groups nor data, the
    /// version has every field, and numbers are little-endian. Otherwise returns `None`, and the entry remains.
    #[inline(always)]
    pub fn next_table(&mut self) -> Option<TableBlock<'a>>
        ensures taken { IfSome result (λ block. TakesTable block self.old self.new) }
        ensures kept { IfNone result (self.new ≡ self.old) }
    {
        if self.left.count == 0 {
            return None;
        }
        if !is_flat(self.layer.level) {
            return None;
        }
        let entry = first_entry(&self.layer, self.left);
        match entry.by_table() {
            Some(block) => {
                self.left = flat_behind(&self.layer, self.left);
                Some(block)
            }
            None => None,
        }
    }
}

impl<'a> Iterator for EntriesView<'a> {
    type Item = BlockView<'a>;

    ghost use Rattle.std.specs.Iterator.{YieldsFirst, item_count};

    ghost next_gives = { YieldsFirst (λ e. e) };

    ghost remaining = { item_count (λ e. e) };

    #[inline(always)]
    fn next(&mut self) -> Option<BlockView<'a>> {
        if self.left.count == 0 {
            return None;
        }
        let entry = first_entry(&self.layer, self.left);
        self.left = others_of(&self.layer, self.left);
        Some(entry)
    }
}

/// The first of some entries.
#[inline(always)]
fn first_entry<'a>(layer: &Layer<'a>, left: Dim) -> BlockView<'a>
    requires layer { IsLayer layer.now }
    requires lie { LieThere layer.now left }
    requires some { 0 < left.count }
    ensures { result ≡ typed_level layer.now.level.now (block_of (entries_read layer.now.mode layer.now.level.now left.block (drop left.after layer.now.body.now))) }
{
    let span = Span {
        mode: layer.mode,
        body: layer.body,
        at: left.after,
        size: left.block as usize,
    };
    BlockView::new(span, Plan::Level(layer.layout, layer.number, layer.level))
}
