// Writes the parts of a message that fits to a buffer, one after another in wire order.
ghost use Rattle.std.specs.Prelude.{◌≡◌, ◌≤◌, ◌<◌, ◌+◌, ◌-◌, length, false, None, Some};
ghost use Rattle.sbe_types.specs.declared.schema.Group.{out-Group};
ghost use Rattle.sbe_types.specs.declared.schema.Level.{out-Level};
ghost use Rattle.sbe_wire.specs.Misfit.{block_shape, each_misfit, group_shape};
ghost use Rattle.schema_facts.specs.Levels.{groups_at, level_at};
ghost use Rattle.layout_tables.specs.Parts.{dim_at};
ghost use Rattle.body_walk.specs.inner.Ready.{IsReadySchema};
ghost use Rattle.typed_writer.specs.declared.stack.Frame.TheVariants.{Entries as EntriesFrame, Tail as TailFrame};
ghost use Rattle.typed_writer.specs.States.{AppendsEntries, AppendsParts, entries_left, level_of, parts_done, parts_in_tail};
ghost use Rattle.typed_writer.specs.Steps.{next_data, next_group};
ghost use Rattle.tree_codec.specs.Puts.{HasRoom, Puts, behind_all, entries_stretch, entry_stretch, group_stretch, groups_stretch, part_stretch, parts_stretch, tail_stretch};
ghost use Rattle.tree_codec.specs.Shapes.{is_gone};

use crate::fills::fill_block;
use layout_tables::Layout;
use sbe_types::{Block, DataField, DataVal, Group, GroupVal, Level, List};
use typed_writer::FrameBuf;

// ---- data

/// Writes the next data part.
fn put_part(layout: &Layout, part: &DataField, value: &DataVal, buf: &mut FrameBuf)
    requires state { AppendsParts layout.now buf.old }
    requires groups { length (groups_at layout.now (level_of buf.old.frames)) ≤ parts_done buf.old.frames }
    requires more { parts_done buf.old.frames < parts_in_tail layout.now (level_of buf.old.frames) }
    requires next { next_data layout.now buf.old.frames ≡ Some part.now }
    requires there { is_gone value.now ≡ false }
    requires room { HasRoom (part_stretch layout.now.order part.now value.now) buf.old }
    ensures ready { AppendsParts layout.now buf.new }
    ensures puts { Puts (part_stretch layout.now.order part.now value.now) (TailFrame (level_of buf.old.frames) (parts_done buf.old.frames + 1)) buf.old buf.new }
{
    match value {
        DataVal::Absent => unreachable!(),
        DataVal::Bytes(bytes) => match buf.put_data(layout, bytes.as_slice()) {
            Ok(()) => {}
            Err(_) => unreachable!(),
        },
    }
}

/// Writes the data parts of a block, after its groups.
fn put_parts(layout: &Layout, level: &Level, block: &Block, buf: &mut FrameBuf)
    requires level { level_at layout.now (level_of buf.old.frames) ≡ Some level.now }
    requires shape { block_shape level.now block.now ≡ None }
    requires state { AppendsParts layout.now buf.old }
    requires at { parts_done buf.old.frames ≡ length (out-Level level.now).groups }
    requires room { HasRoom (parts_stretch layout.now.order level.now block.now) buf.old }
    ensures ready { AppendsParts layout.now buf.new }
    ensures puts { Puts (parts_stretch layout.now.order level.now block.now) (behind_all layout.now buf.old.frames) buf.old buf.new }
{
    for i in 0..level.parts.len() {
        put_part(layout, level.parts.at(i), block.parts.at(i), buf);
    }
}

// ---- groups

/// Writes the groups and data of a block.
#[cycle(put)]
pub(crate) fn put_tail(layout: &Layout, level: &Level, block: &Block, buf: &mut FrameBuf)
    requires schema { IsReadySchema layout.now }
    requires level { level_at layout.now (level_of buf.old.frames) ≡ Some level.now }
    requires shape { block_shape level.now block.now ≡ None }
    requires state { AppendsParts layout.now buf.old }
    requires at { parts_done buf.old.frames ≡ 0 }
    requires room { HasRoom (tail_stretch layout.now.order level.now block.now) buf.old }
    ensures ready { AppendsParts layout.now buf.new }
    ensures puts { Puts (tail_stretch layout.now.order level.now block.now) (behind_all layout.now buf.old.frames) buf.old buf.new }
{
    put_groups(layout, level, block, buf);
    put_parts(layout, level, block, buf);
}

/// Writes the groups of a block.
#[cycle(put)]
fn put_groups(layout: &Layout, level: &Level, block: &Block, buf: &mut FrameBuf)
    requires schema { IsReadySchema layout.now }
    requires level { level_at layout.now (level_of buf.old.frames) ≡ Some level.now }
    requires shape { block_shape level.now block.now ≡ None }
    requires state { AppendsParts layout.now buf.old }
    requires at { parts_done buf.old.frames ≡ 0 }
    requires room { HasRoom (groups_stretch layout.now.order level.now block.now) buf.old }
    ensures ready { AppendsParts layout.now buf.new }
    ensures puts { Puts (groups_stretch layout.now.order level.now block.now) (TailFrame (level_of buf.old.frames) (length (out-Level level.now).groups)) buf.old buf.new }
{
    for i in 0..level.groups.len() {
        put_group(layout, level.groups.at(i), block.groups.at(i), buf);
    }
}

/// Writes the next group.
#[cycle(put)]
fn put_group(layout: &Layout, group: &Group, value: &GroupVal, buf: &mut FrameBuf)
    requires schema { IsReadySchema layout.now }
    requires level { level_at layout.now (next_group layout.now buf.old.frames) ≡ Some (out-Group group.now).level }
    requires dim { dim_at layout.now (next_group layout.now buf.old.frames) ≡ Some (out-Group group.now).dim }
    requires shape { group_shape group.now value.now ≡ None }
    requires state { AppendsParts layout.now buf.old }
    requires more { parts_done buf.old.frames < length (groups_at layout.now (level_of buf.old.frames)) }
    requires room { HasRoom (group_stretch layout.now.order group.now value.now) buf.old }
    ensures ready { AppendsParts layout.now buf.new }
    ensures puts { Puts (group_stretch layout.now.order group.now value.now) (TailFrame (level_of buf.old.frames) (parts_done buf.old.frames + 1)) buf.old buf.new }
{
    match value {
        GroupVal::Absent => unreachable!(),
        GroupVal::Entries(entries) => match buf.group(layout, entries.len() as u32) {
            Ok(mut open) => {
                put_entries(layout, &group.level, entries, open.buf);
                open.end();
            }
            Err(_) => unreachable!(),
        },
    }
}

/// Writes the entries of a group, after its dimension.
#[cycle(put)]
fn put_entries(layout: &Layout, level: &Level, entries: &List<Block>, buf: &mut FrameBuf)
    requires schema { IsReadySchema layout.now }
    requires level { level_at layout.now (level_of buf.old.frames) ≡ Some level.now }
    requires shape { each_misfit (λ entry. block_shape level.now entry) 0 entries.now ≡ None }
    requires state { AppendsEntries layout.now buf.old }
    requires at { entries_left buf.old.frames ≡ length entries.now }
    requires room { HasRoom (entries_stretch layout.now.order level.now entries.now) buf.old }
    ensures ready { AppendsEntries layout.now buf.new }
    ensures puts { Puts (entries_stretch layout.now.order level.now entries.now) (EntriesFrame (level_of buf.old.frames) 0) buf.old buf.new }
{
    for i in 0..entries.len() {
        put_entry(layout, level, entries.at(i), buf);
    }
}

/// Writes the next entry of a group.
#[cycle(put)]
fn put_entry(layout: &Layout, level: &Level, entry: &Block, buf: &mut FrameBuf)
    requires schema { IsReadySchema layout.now }
    requires level { level_at layout.now (level_of buf.old.frames) ≡ Some level.now }
    requires shape { block_shape level.now entry.now ≡ None }
    requires state { AppendsEntries layout.now buf.old }
    requires some { 0 < entries_left buf.old.frames }
    requires room { HasRoom (entry_stretch layout.now.order level.now entry.now) buf.old }
    ensures ready { AppendsEntries layout.now buf.new }
    ensures puts { Puts (entry_stretch layout.now.order level.now entry.now) (EntriesFrame (level_of buf.old.frames) (entries_left buf.old.frames - 1)) buf.old buf.new }
{
    match buf.entry(layout) {
        Ok(mut fields) => {
            fill_block(layout, level, entry, fields.buf);
            match fields.buf.done(layout) {
                Ok(mut tail) => {
                    put_tail(layout, level, entry, tail.buf);
                    tail.close();
                }
                Err(_) => unreachable!(),
            }
        }
        Err(_) => unreachable!(),
    }
}
