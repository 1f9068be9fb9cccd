// The fields of sets.
ghost use Rattle.std.specs.Prelude.{◌≡◌, is_some, length, true, IfOk, IfSome, None, Ok};
ghost use Rattle.tagvalue_codec.specs.declared.write.Phase.TheVariants.{Open};
ghost use Rattle.bridge_rules.specs.Texts.{field_text};
ghost use Rattle.bridge_terms.specs.MessageFields.{length_in};
ghost use Rattle.bridge_terms.specs.Parts.{TagLists};
ghost use Rattle.message_walk.specs.States.{IsPut};
ghost use Rattle.fix_values.specs.Values.{can_show, is_asked, text_of};
ghost use Rattle.set_texts.specs.declared.texts.TheConstants.{SET_ROOM as ROOM};
ghost use Rattle.value_texts.specs.SetRules.{HasTextsOf};

use crate::spelling::Spelling;
use fix_values::NumRule;
use lists::NoMem;
use message_walk::{Halt, Lead, Put, put_text};
use set_texts::{SET_ROOM, SetTexts};
use std::alloc::Global;
use std::marker::Model;
use tagvalue_codec::FixWriter;

/// A rule by which sets can be written, and the texts of its codes, if they are short.
#[derive(Drop)]
pub struct SetSpelling {
    spelling: Spelling,
    texts: Option<SetTexts>,
}

impl Model for SetSpelling {
    ghost use Rattle.std.specs.Prelude.{◌≡◌, true, IfSome};
    ghost use Rattle.fix_values.specs.declared.rule.NumRule.{NumRule as AnyRule};
    ghost use Rattle.fix_values.specs.Values.{can_show};
    ghost use Rattle.value_texts.specs.SetRules.{HasTextsOf};

    ghost Value = { AnyRule };

    ghost view = { λ set. set.spelling };

    ghost invariant = { λ set. (can_show set.spelling ≡ true) × IfSome set.texts (HasTextsOf set.spelling) };
}

impl SetSpelling {
    /// Wraps a rule. `None` if numbers can't be written by it.
    ///
    /// # Errors
    ///
    /// If memory runs out.
    pub fn new(alloc: Global, rule: NumRule) -> Result<Option<SetSpelling>, NoMem>
        ensures same { IfOk result (λ made. IfSome made (λ set. set ≡ rule)) }
        ensures some { IfOk result (λ made. is_some made ≡ can_show rule) }
    {
        let texts = texts_of(alloc, &rule)?;
        match Spelling::new(rule) {
            Some(spelling) => Ok(Some(SetSpelling { spelling, texts })),
            None => Ok(None),
        }
    }

    /// Writes the field of a set's number.
    pub(crate) fn put(&self, n: i128, lead: &Lead, out: &mut FixWriter, halt: &mut Halt) -> Put
        requires { out.old.phase ≡ Open }
        ensures open { out.new.phase ≡ Open }
        ensures put { (lists : TagLists) → length_in lead.now lists.lengths ≡ None → is_asked self.now n ≡ true
            → IsPut lists out.old lead.now (field_text (text_of self.now n)) (record { put = result; draft = out.new; halt = halt.new }) }
    {
        let mut room = [0; SET_ROOM];
        match self.text_in(n, &mut room) {
            Some(text) => put_text(lead, text, out, halt),
            None => self.spelling.put(n, lead, out, halt),
        }
    }

    /// The text of a set's number, without the general rule.
    #[inline(always)]
    fn text_in<'r>(&self, n: i128, room: &'r mut [u8; SET_ROOM]) -> Option<&'r [u8]>
        requires { length room.old ≡ ROOM }
        ensures { IfSome result (λ text. text_of self.now n ≡ Ok text.now) }
    {
        let Some(texts) = &self.texts else {
            return None;
        };
        let Ok(bits) = u64::try_from(n) else {
            return None;
        };
        texts.text_in(bits, room)
    }
}

/// The texts of the codes of a rule of sets.
fn texts_of(alloc: Global, rule: &NumRule) -> Result<Option<SetTexts>, NoMem>
    ensures { IfOk result (λ made. IfSome made (HasTextsOf rule.now)) }
{
    match rule {
        NumRule::Codes(codes) => SetTexts::new(alloc, codes.as_slice()),
        NumRule::Int => Ok(None),
        NumRule::Decimal => Ok(None),
        NumRule::Char => Ok(None),
        NumRule::Boolean(_) => Ok(None),
        NumRule::Code(_) => Ok(None),
    }
}
