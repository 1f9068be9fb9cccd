// The fields of numbers and texts.
ghost use Rattle.std.specs.Prelude.{◌≡◌, None, Ok, Some};
ghost use Rattle.std.specs.Option.{option_map};
ghost use Rattle.std.specs.Fmt.{signed_decimal};
ghost use Rattle.tagvalue_codec.specs.declared.write.Phase.TheVariants.{Open};
ghost use Rattle.bridge_terms.specs.MessageFields.{length_in};
ghost use Rattle.bridge_terms.specs.Parts.{TagLists};
ghost use Rattle.message_walk.specs.States.{IsPut};
ghost use Rattle.fix_values.specs.Values.{text_of, text_shown};
ghost use Rattle.bridge_rules.specs.Texts.{judged_text, text_if_any};
ghost use Rattle.value_texts.specs.Rows.{CanAsk};

use crate::fronts::Front;
use crate::sets::SetSpelling;
use crate::spelling::Spelling;
use itoa::Buffer;
use message_walk::{Halt, Lead, Put, put_judged, put_text};
use tagvalue_codec::FixWriter;

/// Writes the field of a number, if there is one.
#[inline(always)]
pub(crate) fn put_number(
    rule: &Spelling,
    number: Option<i128>,
    lead: &Lead,
    out: &mut FixWriter,
    halt: &mut Halt,
) -> Put
    requires { out.old.phase ≡ Open }
    ensures open { out.new.phase ≡ Open }
    ensures put { (lists : TagLists) → length_in lead.now lists.lengths ≡ None → CanAsk rule.now number
        → IsPut lists out.old lead.now (text_if_any number (λ n. text_of rule.now n)) (record { put = result; draft = out.new; halt = halt.new }) }
{
    match number {
        None => Put::Nothing,
        Some(n) => rule.put(n, lead, out, halt),
    }
}

/// Writes the field of a set's number, if there is one.
#[inline(always)]
pub(crate) fn put_choices(
    rule: &SetSpelling,
    number: Option<i128>,
    lead: &Lead,
    out: &mut FixWriter,
    halt: &mut Halt,
) -> Put
    requires { out.old.phase ≡ Open }
    ensures open { out.new.phase ≡ Open }
    ensures put { (lists : TagLists) → length_in lead.now lists.lengths ≡ None → CanAsk rule.now number
        → IsPut lists out.old lead.now (text_if_any number (λ n. text_of rule.now n)) (record { put = result; draft = out.new; halt = halt.new }) }
{
    match number {
        None => Put::Nothing,
        Some(n) => rule.put(n, lead, out, halt),
    }
}

/// Writes the field of a number's digits.
#[tactic(auto, using(crate::proofs::Plain::digits_value))]
pub(crate) fn put_digits(n: i128, lead: &Lead, out: &mut FixWriter, halt: &mut Halt) -> Put
    requires { out.old.phase ≡ Open }
    ensures open { out.new.phase ≡ Open }
    ensures put { (lists : TagLists) → length_in lead.now lists.lengths ≡ None
        → IsPut lists out.old lead.now (Ok (Some (signed_decimal n))) (record { put = result; draft = out.new; halt = halt.new }) }
{
    let mut buffer = Buffer::new();
    let digits = buffer.format(n).as_bytes();
    put_text(lead, digits, out, halt)
}

/// Writes the field of a text, if there is one and it may be written.
#[inline(always)]
pub(crate) fn put_passage(
    text: Option<Front<'_>>,
    lead: &Lead,
    out: &mut FixWriter,
    halt: &mut Halt,
) -> Put
    requires { out.old.phase ≡ Open }
    ensures open { out.new.phase ≡ Open }
    ensures put { (lists : TagLists) → length_in lead.now lists.lengths ≡ None
        → IsPut lists out.old lead.now (text_if_any (option_map (λ f. f.text.now) text.entry) (λ t. judged_text t (text_shown t))) (record { put = result; draft = out.new; halt = halt.new }) }
{
    match text {
        None => Put::Nothing,
        Some(front) => put_judged(lead, front.text, out, halt),
    }
}
