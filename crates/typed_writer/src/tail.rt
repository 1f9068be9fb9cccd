// The groups and data after a block.
ghost use Rattle.std.specs.Prelude.{◌≡◌, ◌≤◌, ◌<◌, ◌+◌, ◌∷◌, true, length, drop, slice_get, OnOk, OnErr, IfOk, IfErr, Some, pos};
ghost use Rattle.std.specs.Borrow.{sem};
ghost use Rattle.std.specs.Option.{IsSome};
ghost use Rattle.sbe_types.specs.Shown.{admits};
ghost use Rattle.sbe_types.specs.declared.message.DataVal.TheVariants.{Bytes};
ghost use Rattle.sbe_wire.specs.Canonical.{part_bytes};
ghost use Rattle.schema_facts.specs.InOrder.{IsLeafInOrder};
ghost use Rattle.schema_facts.specs.Measured.{IsSmall};
ghost use Rattle.schema_facts.specs.Levels.{all_nodes, groups_at, parts_at};
ghost use Rattle.layout_tables.specs.Parts.{dim_at};
ghost use Rattle.kind_bytes.specs.Members.{followed_by};
ghost use Rattle.typed_writer.specs.Lending.{EntriesRest};
ghost use Rattle.typed_writer.specs.States.{AppendsEntries, AppendsParts, level_of, parts_done, parts_in_tail};
ghost use Rattle.typed_writer.specs.Steps.{Adds, DataRefused, GroupRefused, Groups, PartRefused, admits_entries, dimension_in, dimension_size, next_group};

use crate::buffer::FrameBuf;
use crate::stack::Frame;
use crate::states::{EntriesW, TailErr};
use layout_tables::Layout;
use sbe_types::{DataField, Order};
use sbe_wire::Counters;

impl FrameBuf {
    /// Appends the dimension of the next group.
    #[tactic(auto, using(crate::proofs::Checked::child_shallow, crate::proofs::Standing::group_room))]
    fn lay_group(&mut self, layout: &Layout, count: u32) -> Result<(), TailErr>
        requires state { AppendsParts layout.now self.old }
        requires group { parts_done self.old.frames < length (groups_at layout.now (level_of self.old.frames)) }
        ensures ok { OnOk result (Groups layout.now count self.old self.new) }
        ensures ready { OnOk result (AppendsEntries layout.now self.new) }
        ensures err { OnErr result (self.new ≡ self.old) }
        ensures refused { IfErr result (GroupRefused layout.now (next_group layout.now self.old.frames) count self.old) }
    {
        match self.stack.top() {
            Some(Frame::Tail { level, next }) => {
                let _counts = layout.counts(level);
                let group = layout.group(level, next);
                let _depth = self.stack.len();
                match self.lay_dimension(layout, group, count) {
                    Ok(()) => {}
                    Err(e) => return Err(e),
                }
                self.stack.replace(Frame::Tail {
                    level,
                    next: next + 1,
                });
                self.stack.push(Frame::Entries {
                    level: group,
                    left: count,
                });
                Ok(())
            }
            Some(Frame::Fields { .. }) => unreachable!(),
            Some(Frame::Entries { .. }) => unreachable!(),
            None => unreachable!(),
        }
    }

    /// Appends the dimension of a group, given the number of its level.
    #[tactic(auto, using(crate::proofs::Grouping::dim_room, crate::proofs::Grouping::dim_stands, crate::proofs::Grouping::dim_told, crate::proofs::Grouping::size_is, crate::proofs::Checked::block_told, layout_tables::proofs::GroupWalk::dim_within))]
    fn lay_dimension(&mut self, layout: &Layout, group: usize, count: u32) -> Result<(), TailErr>
        requires { IsSome (dim_at layout.now group) }
        ensures admitted { OnOk result (admits_entries layout.now group count ≡ true) }
        ensures bytes { OnOk result (followed_by self.old.bytes (dimension_in layout.now group count) ≡ Some self.new.bytes) }
        ensures frames { self.new.frames ≡ self.old.frames }
        ensures limit { self.new.limit ≡ self.old.limit }
        ensures err { OnErr result (self.new ≡ self.old) }
        ensures refused { IfErr result (GroupRefused layout.now group count self.old) }
    {
        if !admits(layout, group, count) {
            return Err(TailErr::Count);
        }
        match self.room.judge(width(layout, group) as u64) {
            Ok(()) => {}
            Err(full) => return Err(TailErr::Full(full)),
        }
        let _schema = layout.schema();
        let numbers = Counters::Dimension {
            block: layout.block(group),
            count,
        };
        self.room
            .members(layout.order(), layout.dim(group), numbers);
        Ok(())
    }

    /// Begins the next group, with `count` entries. Requires that a group is next.
    ///
    /// # Errors
    ///
    /// `Count` exactly if the group's count doesn't allow this many entries; otherwise `Full` exactly if its dimension
    /// exceeds the limit. The buffer is then unchanged.
    pub fn group<'b>(&'b mut self, layout: &'b Layout, count: u32) -> Result<EntriesW<'b>, TailErr>
        requires state { AppendsParts layout.now self.old }
        requires group { parts_done self.old.frames < length (groups_at layout.now (level_of self.old.frames)) }
        ensures* rests { sem 𝓛 (EntriesRest self.entry result) }
        ensures same_reference { IfOk result (λ e. e.buf.ghost_name ≡ self.entry.ghost_name) }
        ensures ok { IfOk result (λ e. Groups layout.now count self.old e.buf.now) }
        ensures ready { IfOk result (λ e. AppendsEntries layout.now e.buf.now) }
        ensures depth { IfOk result (λ e. e.depth ≡ length e.buf.now.frames) }
        ensures layout { IfOk result (λ e. e.layout.now ≡ layout.now) }
        ensures refused { IfErr result (GroupRefused layout.now (next_group layout.now self.old.frames) count self.old) }
    {
        match self.lay_group(layout, count) {
            Ok(()) => {
                let depth = self.stack.len();
                Ok(EntriesW {
                    buf: self,
                    layout,
                    depth,
                })
            }
            Err(e) => Err(e),
        }
    }

    /// Appends the next data part (SBE 1.0, "Variable-length data"). Requires that a data part is next.
    ///
    /// # Errors
    ///
    /// `Length` exactly if the part's length doesn't allow this many bytes; otherwise `Full` exactly if they exceed the
    /// limit with their length number. The buffer is then unchanged.
    #[tactic(auto, using(crate::proofs::Parting::part_told, crate::proofs::Parting::part_admits, crate::proofs::Checked::tail_few))]
    pub fn put_data(&mut self, layout: &Layout, bytes: &[u8]) -> Result<(), TailErr>
        requires state { AppendsParts layout.now self.old }
        requires groups { length (groups_at layout.now (level_of self.old.frames)) ≤ parts_done self.old.frames }
        requires part { parts_done self.old.frames < parts_in_tail layout.now (level_of self.old.frames) }
        ensures ok { OnOk result (Adds layout.now bytes.now self.old self.new) }
        ensures ready { OnOk result (AppendsParts layout.now self.new) }
        ensures err { OnErr result (self.new ≡ self.old) }
        ensures refused { IfErr result (DataRefused layout.now (length bytes.now) self.old) }
    {
        match self.stack.top() {
            Some(Frame::Tail { level, next }) => {
                let _schema = layout.schema();
                let groups = layout.counts(level).1;
                let part = part_at(layout, level, next - groups);
                match self.lay_part(layout.order(), part, bytes) {
                    Ok(()) => {}
                    Err(e) => return Err(e),
                }
                self.stack.replace(Frame::Tail {
                    level,
                    next: next + 1,
                });
                Ok(())
            }
            Some(Frame::Fields { .. }) => unreachable!(),
            Some(Frame::Entries { .. }) => unreachable!(),
            None => unreachable!(),
        }
    }

    /// Appends the length of a data part, and its bytes.
    #[tactic(auto, using(crate::proofs::Parting::length_held, crate::proofs::Parting::length_small, crate::proofs::Lists::behind_both))]
    fn lay_part(&mut self, order: Order, part: &DataField, bytes: &[u8]) -> Result<(), TailErr>
        requires small { IsSmall part.now.length.prim }
        requires order { IsLeafInOrder part.now.length }
        ensures bytes { OnOk result (followed_by self.old.bytes (part_bytes order part.now (Bytes bytes.now)) ≡ Some self.new.bytes) }
        ensures frames { self.new.frames ≡ self.old.frames }
        ensures limit { self.new.limit ≡ self.old.limit }
        ensures err { OnErr result (self.new ≡ self.old) }
        ensures admitted { OnOk result (admits part.now.length (pos (length bytes.now)) ≡ true) }
        ensures refused { IfErr result (PartRefused part.now (length bytes.now) self.old) }
    {
        let leaf = &part.length;
        if !leaf.admits(bytes.len() as i128) {
            return Err(TailErr::Length);
        }
        match self
            .room
            .judge(leaf.prim.width() as u64 + bytes.len() as u64)
        {
            Ok(()) => {}
            Err(full) => return Err(TailErr::Full(full)),
        }
        self.room.number(order, leaf.prim, bytes.len() as i128);
        self.room.append(bytes);
        Ok(())
    }
}

/// Data part `i` of a level.
#[tactic(auto, using(crate::proofs::Parting::part_small, crate::proofs::Parting::part_order))]
fn part_at(layout: &Layout, level: usize, i: usize) -> &DataField
    requires level { level < length (all_nodes layout.now) }
    requires part { i < length (parts_at layout.now level) }
    ensures at { slice_get (parts_at layout.now level) i ≡ Some result.now }
    ensures small { IsSmall result.now.length.prim }
    ensures order { IsLeafInOrder result.now.length }
{
    let _schema = layout.schema();
    &layout.parts(level)[i]
}

/// Whether a group may have `count` entries.
#[tactic(auto, using(crate::proofs::Grouping::admits_told, group_codec::proofs::DimRows::never_none, layout_tables::proofs::GroupWalk::dim_within))]
fn admits(layout: &Layout, group: usize, count: u32) -> bool
    requires { IsSome (dim_at layout.now group) }
    ensures { result ≡ admits_entries layout.now group count }
{
    match &layout.row(group).dim {
        Some(row) => row.count.leaf.admits(count as i128),
        None => unreachable!(),
    }
}

/// How many bytes the dimension of a group has.
#[tactic(auto, using(crate::proofs::Grouping::size_told, group_codec::proofs::DimRows::never_none, layout_tables::proofs::GroupWalk::dim_within))]
fn width(layout: &Layout, group: usize) -> u32
    requires { IsSome (dim_at layout.now group) }
    ensures { result ≡ dimension_size layout.now group }
{
    match &layout.row(group).dim {
        Some(row) => row.width,
        None => unreachable!(),
    }
}
