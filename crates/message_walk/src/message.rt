// The fields of a whole message.
ghost use Rattle.std.specs.Prelude.{◌≡◌};
ghost use Rattle.tagvalue_codec.specs.declared.write.Phase.TheVariants.{Open};
ghost use Rattle.bridge_terms.specs.Blocks.{values_of};
ghost use Rattle.bridge_terms.specs.Parts.{TagLists};
ghost use Rattle.bridge_terms.specs.Places.{places_of};
ghost use Rattle.bridge_terms.specs.Plans.{Plan};
ghost use Rattle.message_walk.specs.Messages.{IsMessagePut};
ghost use Rattle.message_walk.specs.Rows.{AreRows, FitsBlock};
ghost use Rattle.message_walk.specs.States.{outcome};

use crate::halt::Halt;
use crate::plan::PlanRow;
use crate::put::PutValue;
use crate::walk::put_rows;
use flyweight_view::BlockView;
use tagvalue_codec::FixWriter;

/// Writes the fields of a message in the order of the structure, by the rows of its plan. Allocates nothing. If it
/// returns false, `halt` receives the first place that isn't written.
pub fn put_message<R: PutValue>(
    rows: &[PlanRow<R>],
    root: &BlockView<'_>,
    out: &mut FixWriter,
    halt: &mut Halt,
) -> bool
    requires { out.old.phase ≡ Open }
    ensures open { out.new.phase ≡ Open }
    ensures put { (lists : TagLists) (p : Plan) → AreRows R.spells lists p rows.now → FitsBlock p root.now
        → IsMessagePut lists out.old (places_of p (values_of p root.now.block)) (outcome result out.new halt.new) }
{
    put_rows(rows, root, out, halt)
}
