// Fills blocks in a buffer: each field is set to its value.
ghost use Rattle.std.specs.Prelude.{◌≡◌, ◌<◌, None, Some, length};
ghost use Rattle.sbe_types.specs.declared.message.Block.{out-Block};
ghost use Rattle.sbe_types.specs.declared.schema.Level.{out-Level};
ghost use Rattle.sbe_wire.specs.Misfit.{fields_misfit};
ghost use Rattle.schema_facts.specs.Levels.{level_at};
ghost use Rattle.body_walk.specs.inner.Ready.{IsReadySchema};
ghost use Rattle.typed_writer.specs.States.{SetsFields, level_of};
ghost use Rattle.tree_codec.specs.Puts.{Fills, HoldsNext, task_of};

use layout_tables::Layout;
use sbe_types::{Block, Kind, Level};
use typed_writer::FrameBuf;

/// Sets the fields of the block that was begun last to values that fit.
pub(crate) fn fill_block(layout: &Layout, level: &Level, block: &Block, buf: &mut FrameBuf)
    requires schema { IsReadySchema layout.now }
    requires state { SetsFields layout.now buf.old }
    requires level { level_at layout.now (level_of buf.old.frames) ≡ Some level.now }
    requires many { length (out-Level level.now).fields ≡ length (out-Block block.now).fields }
    requires fits { fields_misfit 0 (out-Level level.now).fields (out-Block block.now).fields ≡ None }
    ensures ready { SetsFields layout.now buf.new }
    ensures fills { Fills (task_of layout.now level.now block.now) buf.old buf.new }
{
    for i in 0..level.fields.len() {
        set_field(layout, level, block, i, buf);
    }
}

/// Sets field `i` of the block that was begun last to its value, which fits; a constant is left as it is.
fn set_field(layout: &Layout, level: &Level, block: &Block, i: usize, buf: &mut FrameBuf)
    requires schema { IsReadySchema layout.now }
    requires state { SetsFields layout.now buf.old }
    requires level { level_at layout.now (level_of buf.old.frames) ≡ Some level.now }
    requires field { i < length (out-Level level.now).fields }
    requires value { i < length (out-Block block.now).fields }
    requires fits { fields_misfit 0 (out-Level level.now).fields (out-Block block.now).fields ≡ None }
    ensures ready { SetsFields layout.now buf.new }
    ensures next { HoldsNext (task_of layout.now level.now block.now) i buf.old buf.new }
{
    let value = block.fields.at(i);
    match &level.fields.at(i).kind {
        Kind::Const(_) => {}
        Kind::Leaf(_) | Kind::Enum(_, _) | Kind::Set(_, _) | Kind::Comp(_) => {
            match buf.set(layout, i, value) {
                Ok(()) => {}
                Err(_) => unreachable!(),
            }
        }
    }
}
