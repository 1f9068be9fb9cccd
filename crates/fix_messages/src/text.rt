// The text of a whole message.
ghost use Rattle.std.specs.Prelude.{◌≡◌, true};
ghost use Rattle.tagvalue_codec.specs.declared.write.Phase.TheVariants.{Done};
ghost use Rattle.tagvalue_codec.specs.Drafts.{IsValue};
ghost use Rattle.bridge_terms.specs.Blocks.{values_of};
ghost use Rattle.bridge_terms.specs.Parts.{TagLists};
ghost use Rattle.bridge_terms.specs.Places.{places_of};
ghost use Rattle.bridge_terms.specs.Plans.{Plan};
ghost use Rattle.message_walk.specs.Rows.{AreRows, FitsBlock};
ghost use Rattle.fix_messages.specs.Heads.{head_of, IsHeadReady};
ghost use Rattle.fix_messages.specs.Texts.{IsTextPut};

use crate::head::{FixHead, put_head};
use flyweight_view::BlockView;
use message_walk::{Halt, PlanRow, PutValue, put_rows};
use tagvalue_codec::FixWriter;

/// A template as a mapping describes it: the type of its messages, and the rows of its plan.
#[derive(Drop)]
pub struct MessageRows<'a, R> {
    /// MsgType (35).
    pub msg_type: &'a [u8],
    /// The places of its levels.
    pub rows: &'a [PlanRow<R>],
}

/// Writes the text of a message: its head, and its fields in the order of the structure. Allocates nothing. If it
/// returns false, `halt` receives the first place that isn't written, and there is no text.
pub fn write_text<R: PutValue>(
    template: &MessageRows<'_, R>,
    root: &BlockView<'_>,
    head: &FixHead<'_>,
    out: &mut FixWriter,
    halt: &mut Halt,
) -> bool
    requires head { IsHeadReady (head_of head.now) }
    requires kind { IsValue template.now.msg_type.now }
    ensures done { result ≡ true → out.new.phase ≡ Done }
    ensures limit { (lists : TagLists) (p : Plan) → AreRows R.spells lists p template.now.rows.now → FitsBlock p root.now
        → out.new.limit ≡ out.old.limit }
    ensures text { (lists : TagLists) (p : Plan) → AreRows R.spells lists p template.now.rows.now → FitsBlock p root.now
        → IsTextPut lists out.old.limit template.now.msg_type.now (head_of head.now) (places_of p (values_of p root.now.block)) result out.new halt.new }
{
    if !put_head(head, template.msg_type, out, halt) {
        return false;
    }
    if !put_rows(template.rows, root, out, halt) {
        return false;
    }
    out.finish();
    true
}
