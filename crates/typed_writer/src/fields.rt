// The fields of a block.
ghost use Rattle.std.specs.Prelude.{◌≡◌, ◌<◌, length, slice_get, OnOk, OnErr, Some};
ghost use Rattle.std.specs.Option.{option_map};
ghost use Rattle.std.specs.Result.{result_err};
ghost use Rattle.schema_facts.specs.InOrder.{IsKindInOrder};
ghost use Rattle.schema_facts.specs.Levels.{all_nodes, fields_at};
ghost use Rattle.kind_bytes.specs.Misfits.{misfit_of};
ghost use Rattle.typed_writer.specs.States.{SetsFields, level_of};
ghost use Rattle.typed_writer.specs.Steps.{SetsField, misfit_at};

use crate::buffer::FrameBuf;
use crate::stack::Frame;
use kind_bytes::{FieldErr, judge_field};
use layout_tables::Layout;
use sbe_types::{Field, Value};

impl FrameBuf {
    /// Sets field `i` of the block that was begun last. A later value replaces an earlier one. Requires a field in
    /// range.
    ///
    /// # Errors
    ///
    /// The first member, element or byte that doesn't fit the field; any value for a constant. The buffer, and which
    /// fields are set, are then unchanged.
    #[tactic(auto, using(crate::proofs::Setting::moving_place, crate::proofs::Setting::field_inside, crate::proofs::Setting::misfit_told, crate::proofs::Checked::fields_few, kind_bytes::proofs::MemberBytes::field_fits))]
    pub fn set(&mut self, layout: &Layout, i: usize, v: &Value) -> Result<(), FieldErr>
        requires state { SetsFields layout.now self.old }
        requires field { i < length (fields_at layout.now (level_of self.old.frames)) }
        ensures ok { OnOk result (SetsField layout.now (level_of self.old.frames) i v.now self.old self.new) }
        ensures ready { OnOk result (SetsFields layout.now self.new) }
        ensures err { OnErr result (self.new ≡ self.old) }
        ensures refused { option_map misfit_of (result_err result) ≡ misfit_at layout.now (level_of self.old.frames) i v.now }
    {
        match self.stack.top() {
            Some(Frame::Fields { level }) => {
                let _schema = layout.schema();
                let field = field_of(layout, level, i);
                match judge_field(&field.kind, i as u32, v) {
                    Ok(()) => {}
                    Err(e) => return Err(e),
                }
                let place = layout.place(level, i) as usize;
                self.room
                    .put(self.at, place, layout.order(), &field.kind, v);
                self.marks.mark(i);
                Ok(())
            }
            Some(Frame::Tail { .. }) => unreachable!(),
            Some(Frame::Entries { .. }) => unreachable!(),
            None => unreachable!(),
        }
    }
}

/// Field `i` of a level.
#[tactic(auto, using(crate::proofs::Setting::field_order))]
fn field_of(layout: &Layout, level: usize, i: usize) -> &Field
    requires level { level < length (all_nodes layout.now) }
    requires field { i < length (fields_at layout.now level) }
    ensures at { slice_get (fields_at layout.now level) i ≡ Some result.now }
    ensures order { IsKindInOrder result.now.kind }
{
    let _schema = layout.schema();
    &layout.fields(level)[i]
}
