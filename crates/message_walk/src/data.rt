// The field of data.
ghost use Rattle.std.specs.Prelude.{◌≡◌, ℕ, None, Some};
ghost use Rattle.std.specs.Option.{option_map};
ghost use Rattle.sbe_types.specs.declared.kind.Leaf.{Leaf};
ghost use Rattle.tagvalue_codec.specs.declared.write.Phase.TheVariants.{Open};
ghost use Rattle.bridge_rules.specs.Rules.{raw_data, text_data};
ghost use Rattle.fix_values.specs.Values.{text_shown};
ghost use Rattle.bridge_rules.specs.Texts.{text_by, field_text, judged_text};
ghost use Rattle.bridge_terms.specs.MessageFields.{length_in};
ghost use Rattle.bridge_terms.specs.Parts.{TagLists};
ghost use Rattle.message_walk.specs.Rows.{value_of_bytes};
ghost use Rattle.message_walk.specs.States.{IsPut};

use crate::halt::{Cause, Halt};
use crate::lead::Lead;
use crate::put::{Put, put_data_text, put_text};
use fix_values::show_text;
use tagvalue_codec::FixWriter;

/// Writes raw data with its length field, unless it is empty or absent.
#[tactic(auto, using(crate::proofs::DataPuts::raw_none, crate::proofs::DataPuts::raw_empty, crate::proofs::DataPuts::raw_some))]
fn put_raw(
    length_lead: &Lead,
    lead: &Lead,
    found: Option<&[u8]>,
    out: &mut FixWriter,
    halt: &mut Halt,
) -> Put
    requires { out.old.phase ≡ Open }
    ensures open { out.new.phase ≡ Open }
    ensures put { (lists : TagLists) (leaf : Leaf) → length_in lead.now lists.lengths ≡ Some length_lead.now
        → IsPut lists out.old lead.now (text_by (raw_data leaf) (value_of_bytes (option_map (λ b. b.now) found.entry)))
        (record { put = result; draft = out.new; halt = halt.new }) }
{
    match found {
        None => Put::Nothing,
        Some(bytes) => {
            if bytes.is_empty() {
                return Put::Nothing;
            }
            put_data_text(length_lead, lead, bytes, out, halt)
        }
    }
}

/// Writes data as a text, unless it is empty or absent.
#[tactic(auto, using(crate::proofs::DataPuts::passage_none, crate::proofs::DataPuts::passage_empty, crate::proofs::DataPuts::passage_some))]
fn put_passage(lead: &Lead, found: Option<&[u8]>, out: &mut FixWriter, halt: &mut Halt) -> Put
    requires { out.old.phase ≡ Open }
    ensures open { out.new.phase ≡ Open }
    ensures put { (lists : TagLists) (leaf : Leaf) → length_in lead.now lists.lengths ≡ None
        → IsPut lists out.old lead.now (text_by (text_data leaf) (value_of_bytes (option_map (λ b. b.now) found.entry)))
        (record { put = result; draft = out.new; halt = halt.new }) }
{
    match found {
        None => Put::Nothing,
        Some(bytes) => {
            if bytes.is_empty() {
                return Put::Nothing;
            }
            put_judged(lead, bytes, out, halt)
        }
    }
}

/// Writes the field of a text, if the text may be written.
#[inline(always)]
#[tactic(auto, using(crate::proofs::DataPuts::judged_fine, crate::proofs::DataPuts::judged_bad, crate::proofs::Values::shown_value))]
pub fn put_judged(lead: &Lead, text: &[u8], out: &mut FixWriter, halt: &mut Halt) -> Put
    requires { out.old.phase ≡ Open }
    ensures open { out.new.phase ≡ Open }
    ensures put { (lists : TagLists) → length_in lead.now lists.lengths ≡ None
        → IsPut lists out.old lead.now (field_text (judged_text text.now (text_shown text.now))) (record { put = result; draft = out.new; halt = halt.new }) }
{
    match show_text(text) {
        Ok(()) => put_text(lead, text, out, halt),
        Err(v) => {
            halt.tell(Cause::NoText(v));
            Put::Refused
        }
    }
}

/// Writes data, raw if it has a length field and as a text if it has none, unless it is empty or absent.
#[inline(always)]
pub(crate) fn put_data(
    length_lead: &Option<Lead>,
    lead: &Lead,
    found: Option<&[u8]>,
    out: &mut FixWriter,
    halt: &mut Halt,
) -> Put
    requires { out.old.phase ≡ Open }
    ensures open { out.new.phase ≡ Open }
    ensures raw { (own : ℕ) (lists : TagLists) (leaf : Leaf) → length_lead.now ≡ Some own → length_in lead.now lists.lengths ≡ Some own
        → IsPut lists out.old lead.now (text_by (raw_data leaf) (value_of_bytes (option_map (λ b. b.now) found.entry)))
        (record { put = result; draft = out.new; halt = halt.new }) }
    ensures passage { (lists : TagLists) (leaf : Leaf) → length_lead.now ≡ None → length_in lead.now lists.lengths ≡ None
        → IsPut lists out.old lead.now (text_by (text_data leaf) (value_of_bytes (option_map (λ b. b.now) found.entry)))
        (record { put = result; draft = out.new; halt = halt.new }) }
{
    match length_lead {
        Some(length_lead) => put_raw(length_lead, lead, found, out, halt),
        None => put_passage(lead, found, out, halt),
    }
}
