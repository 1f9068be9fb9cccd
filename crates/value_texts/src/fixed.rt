// The fields of constants.
ghost use Rattle.std.specs.Prelude.{◌≡◌, None, Ok, if◌then◌else◌};
ghost use Rattle.tagvalue_codec.specs.declared.write.Phase.TheVariants.{Open};
ghost use Rattle.bridge_terms.specs.MessageFields.{length_in};
ghost use Rattle.bridge_terms.specs.Parts.{TagLists};
ghost use Rattle.message_walk.specs.States.{IsPut};
ghost use Rattle.sbe_types.specs.declared.message.Value.{Value};
ghost use Rattle.bridge_rules.specs.Members.{is_const};
ghost use Rattle.value_texts.specs.Rows.{const_text};
ghost use Rattle.value_texts.specs.FieldViews.{IsSeenOf};

use crate::row::ConstText;
use crate::seen::is_constant;
use crate::shown::refuse;
use flyweight_view::FieldBytes;
use message_walk::{Halt, Lead, Put, put_judged};
use tagvalue_codec::FixWriter;

/// Writes the field of a constant, if the field is one.
pub(crate) fn put_constant(
    text: &ConstText,
    field: Option<FieldBytes<'_>>,
    lead: &Lead,
    out: &mut FixWriter,
    halt: &mut Halt,
) -> Put
    requires { out.old.phase ≡ Open }
    ensures open { out.new.phase ≡ Open }
    ensures put { (lists : TagLists) (v : Value) → length_in lead.now lists.lengths ≡ None → IsSeenOf field.entry v
        → IsPut lists out.old lead.now (if is_const v then const_text text.now else Ok None) (record { put = result; draft = out.new; halt = halt.new }) }
{
    if !is_constant(field) {
        return Put::Nothing;
    }
    put_const_text(text, lead, out, halt)
}

/// Writes the field of a constant's text, if the text may be written.
fn put_const_text(text: &ConstText, lead: &Lead, out: &mut FixWriter, halt: &mut Halt) -> Put
    requires { out.old.phase ≡ Open }
    ensures open { out.new.phase ≡ Open }
    ensures put { (lists : TagLists) → length_in lead.now lists.lengths ≡ None
        → IsPut lists out.old lead.now (const_text text.now) (record { put = result; draft = out.new; halt = halt.new }) }
{
    match text {
        ConstText::Given(text) => put_judged(lead, text.as_slice(), out, halt),
        ConstText::Missing(why) => refuse(*why, halt),
    }
}
