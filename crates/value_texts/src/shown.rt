// The field of a text that was written.
ghost use Rattle.std.specs.Prelude.{◌≡◌, ℕ, List, Result, Err, IfOk, None};
ghost use Rattle.tagvalue_codec.specs.declared.write.Phase.TheVariants.{Open};
ghost use Rattle.bridge_terms.specs.MessageFields.{length_in};
ghost use Rattle.bridge_terms.specs.Parts.{TagLists};
ghost use Rattle.message_walk.specs.States.{IsPut};
ghost use Rattle.tagvalue_codec.specs.Drafts.{Draft, IsValue};
ghost use Rattle.fix_values.specs.declared.rule.V.{V as AnyV};
ghost use Rattle.fix_values.specs.Values.{Leaves};
ghost use Rattle.bridge_rules.specs.Texts.{field_text};

use fix_values::{Short, V};
use message_walk::{Cause, Halt, Lead, Put, put_text};
use tagvalue_codec::FixWriter;

/// Writes the field of a text that was written, or records why there is none.
#[inline(always)]
#[tactic(auto, using(crate::proofs::Leaving::shown_fine, crate::proofs::Leaving::shown_bad))]
pub(crate) fn put_shown(
    shown: Result<(), V>,
    text: &Short,
    lead: &Lead,
    out: &mut FixWriter,
    halt: &mut Halt,
) -> Put
    requires open { out.old.phase ≡ Open }
    requires value { IfOk shown (λ u. IsValue text.now) }
    ensures open { out.new.phase ≡ Open }
    ensures put { (lists : TagLists) (told : Result (List ℕ) AnyV) → length_in lead.now lists.lengths ≡ None → Leaves shown text.now told
        → IsPut lists out.old lead.now (field_text told) (record { put = result; draft = out.new; halt = halt.new }) }
{
    match shown {
        Ok(()) => put_text(lead, text.bytes(), out, halt),
        Err(why) => refuse(why, halt),
    }
}

/// Records that a value has no text.
#[cold]
#[tactic(auto, using(crate::proofs::Leaving::refused))]
pub(crate) fn refuse(why: V, halt: &mut Halt) -> Put
    ensures { (lists : TagLists) (d : Draft) (tag : ℕ) → IsPut lists d tag (Err why) (record { put = result; draft = d; halt = halt.new }) }
{
    halt.tell(Cause::NoText(why));
    Put::Refused
}
