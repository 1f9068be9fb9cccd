ghost use Rattle.std.specs.Prelude.{◌≡◌, true};
ghost use Rattle.tagvalue_codec.specs.Drafts.{IsValue};
ghost use Rattle.bridge_terms.specs.Blocks.{values_of};
ghost use Rattle.bridge_terms.specs.Parts.{TagLists};
ghost use Rattle.bridge_terms.specs.Places.{places_of};
ghost use Rattle.bridge_terms.specs.Plans.{Plan};
ghost use Rattle.message_walk.specs.Rows.{AreRows, FitsBlock};
ghost use Rattle.fix_messages.specs.Heads.{head_of, IsHeadReady};
ghost use Rattle.back_texts.specs.Backs.{IsTextOf};

use fix_messages::{FixHead, MessageRows, write_text};
use flyweight_view::BlockView;
use message_walk::{Halt, PutValue};
use tagvalue_codec::FixWriter;

/// Whether a text is the one that a message is written as with this head. `false` is inconclusive. Allocates nothing.
pub fn has_text<R: PutValue>(
    template: &MessageRows<'_, R>,
    root: &BlockView<'_>,
    head: &FixHead<'_>,
    text: &[u8],
    out: &mut FixWriter,
    halt: &mut Halt,
) -> bool
    requires head { IsHeadReady (head_of head.now) }
    requires kind { IsValue template.now.msg_type.now }
    ensures { result ≡ true → (lists : TagLists) (p : Plan) → AreRows R.spells lists p template.now.rows.now → FitsBlock p root.now
        → IsTextOf lists out.old.limit template.now.msg_type.now (head_of head.now) (places_of p (values_of p root.now.block)) text.now }
{
    if !write_text(template, root, head, out, halt) {
        return false;
    }
    out.bytes() == text
}
