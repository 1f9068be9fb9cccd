// How a number is written.
ghost use Rattle.std.specs.Prelude.{◌≡◌, length, true, is_some, None, Some, IfOk, IfSome};
ghost use Rattle.tagvalue_codec.specs.declared.write.Phase.TheVariants.{Open};
ghost use Rattle.tagvalue_codec.specs.Drafts.{IsValue};
ghost use Rattle.bridge_terms.specs.MessageFields.{length_in};
ghost use Rattle.bridge_terms.specs.Parts.{TagLists};
ghost use Rattle.message_walk.specs.States.{IsPut};
ghost use Rattle.std.specs.List.{list_all};
ghost use Rattle.fix_values.specs.Codes.{code_text, found_text, has_short_text};
ghost use Rattle.fix_values.specs.Values.{can_show, is_asked, text_of, Leaves};
ghost use Rattle.bridge_rules.specs.Texts.{field_text};
ghost use Rattle.value_texts.specs.Quick.{HasValue, IsQuick};
ghost use Rattle.value_texts.specs.Spelled.{is_plain, HasGrowing};

use crate::numbers::put_digits;
use crate::quick::{Quick, quick_code, quick_digits};
use crate::shown::{put_shown, refuse};
use crate::small::SMALL_ROOM;
use code_search::are_growing;
use fix_values::{Code, CodeList, NumRule, Short, V, show_num};
use message_walk::{Halt, Lead, Put, put_judged};
use std::marker::Model;
use tagvalue_codec::FixWriter;

/// Up to so many codes are looked through one after another.
const FEW: usize = 16;

/// A rule by which numbers can be written.
#[derive(Drop)]
pub struct Spelling {
    rule: NumRule,
    /// Whether there are many codes, and their numbers grow.
    grows: bool,
}

impl Model for Spelling {
    ghost use Rattle.std.specs.Prelude.{◌≡◌, true};
    ghost use Rattle.fix_values.specs.declared.rule.NumRule.{NumRule as AnyRule};
    ghost use Rattle.fix_values.specs.Values.{can_show};
    ghost use Rattle.value_texts.specs.Spelled.{HasGrowing};

    ghost Value = { AnyRule };

    ghost view = { λ spelling. spelling.rule };

    ghost invariant = { λ spelling. (can_show spelling.rule ≡ true) × (spelling.grows ≡ true → HasGrowing spelling.rule) };
}

impl Spelling {
    /// Wraps a rule. `None` if numbers can't be written by it.
    pub fn new(rule: NumRule) -> Option<Spelling>
        ensures same { IfSome result (λ spelling. spelling ≡ rule) }
        ensures some { is_some result ≡ can_show rule }
    {
        if rule.can_show() {
            let grows = is_searched(&rule);
            return Some(Spelling { rule, grows });
        }
        None
    }

    /// Writes the field of a number. A number that the rule can't be given is left out.
    #[inline(always)]
    pub(crate) fn put(&self, n: i128, lead: &Lead, out: &mut FixWriter, halt: &mut Halt) -> Put
        requires { out.old.phase ≡ Open }
        ensures open { out.new.phase ≡ Open }
        ensures put { (lists : TagLists) → length_in lead.now lists.lengths ≡ None → is_asked self.now n ≡ true
            → IsPut lists out.old lead.now (field_text (text_of self.now n)) (record { put = result; draft = out.new; halt = halt.new }) }
    {
        if is_plain(&self.rule) {
            return put_digits(n, lead, out, halt);
        }
        if let NumRule::Code(codes) = &self.rule {
            return put_code(codes, n, lead, out, halt);
        }
        if !is_asked(&self.rule, n) {
            return Put::Nothing;
        }
        put_ruled(&self.rule, n, lead, out, halt)
    }

    /// The text of most numbers, without the general rules.
    #[inline(always)]
    pub(crate) fn quick(&self, n: i128, room: &mut [u8; SMALL_ROOM]) -> Quick<'_>
        requires { length room.old ≡ SMALL_ROOM }
        ensures long { length room.new ≡ SMALL_ROOM }
        ensures value { HasValue result room.new }
        ensures told { IsQuick result room.new (field_text (text_of self.now n)) }
    {
        match &self.rule {
            NumRule::Int => quick_digits(n, room),
            NumRule::Decimal => quick_digits(n, room),
            NumRule::Code(codes) => quick_code(codes, self.grows, n),
            NumRule::Char => Quick::Other,
            NumRule::Boolean(_) => Quick::Other,
            NumRule::Codes(_) => Quick::Other,
        }
    }

    /// Writes a number as text. One that the rule can't be given is refused.
    pub(crate) fn show(&self, n: i128, out: &mut Short) -> Result<(), V>
        ensures asked { IfOk result (λ u. is_asked self.now n ≡ true) }
        ensures shown { is_asked self.now n ≡ true → Leaves result out.new (text_of self.now n) }
        ensures value { IfOk result (λ u. IsValue out.new) }
    {
        if !is_asked(&self.rule, n) {
            return Err(V::Range);
        }
        show_num(&self.rule, n, out)
    }
}

/// Writes the field of a number by any rule that can be given it. The short text is cleared here alone.
#[inline(never)]
fn put_ruled(rule: &NumRule, n: i128, lead: &Lead, out: &mut FixWriter, halt: &mut Halt) -> Put
    requires open { out.old.phase ≡ Open }
    requires rule { can_show rule.now ≡ true }
    requires asked { is_asked rule.now n ≡ true }
    ensures open { out.new.phase ≡ Open }
    ensures put { (lists : TagLists) → length_in lead.now lists.lengths ≡ None
        → IsPut lists out.old lead.now (field_text (text_of rule.now n)) (record { put = result; draft = out.new; halt = halt.new }) }
{
    let mut text = Short::new();
    let shown = show_num(rule, n, &mut text);
    put_shown(shown, &text, lead, out, halt)
}

/// Writes the field of the first code with this number.
#[inline(always)]
fn put_code(codes: &CodeList, n: i128, lead: &Lead, out: &mut FixWriter, halt: &mut Halt) -> Put
    requires open { out.old.phase ≡ Open }
    requires short { list_all has_short_text codes.now ≡ true }
    ensures open { out.new.phase ≡ Open }
    ensures put { (lists : TagLists) → length_in lead.now lists.lengths ≡ None
        → IsPut lists out.old lead.now (field_text (code_text codes.now n)) (record { put = result; draft = out.new; halt = halt.new }) }
{
    for code in codes.as_slice() {
        if code.number == n {
            return put_code_text(code, lead, out, halt);
        }
    }
    refuse(V::UnknownCode, halt)
}

/// Writes the field of a code's text, unless it contains SOH.
#[inline(always)]
fn put_code_text(code: &Code, lead: &Lead, out: &mut FixWriter, halt: &mut Halt) -> Put
    requires open { out.old.phase ≡ Open }
    requires short { has_short_text code.now ≡ true }
    ensures open { out.new.phase ≡ Open }
    ensures put { (lists : TagLists) → length_in lead.now lists.lengths ≡ None
        → IsPut lists out.old lead.now (field_text (found_text (Some code.now))) (record { put = result; draft = out.new; halt = halt.new }) }
{
    put_judged(lead, code.text.as_slice(), out, halt)
}

/// Whether the codes of a rule are many, and their numbers grow.
fn is_searched(rule: &NumRule) -> bool
    ensures { result ≡ true → HasGrowing rule.now }
{
    match rule {
        NumRule::Code(codes) => codes.len() > FEW && are_growing(codes.as_slice()),
        NumRule::Int | NumRule::Decimal | NumRule::Char => false,
        NumRule::Boolean(_) | NumRule::Codes(_) => false,
    }
}

/// Whether numbers are written as digits.
#[inline(always)]
fn is_plain(rule: &NumRule) -> bool
    ensures { result ≡ is_plain rule.now }
{
    match rule {
        NumRule::Int | NumRule::Decimal => true,
        NumRule::Char | NumRule::Boolean(_) | NumRule::Code(_) | NumRule::Codes(_) => false,
    }
}

/// Whether the rule can be given this number.
fn is_asked(rule: &NumRule, n: i128) -> bool
    ensures { result ≡ is_asked rule.now n }
{
    match rule {
        NumRule::Char => 0 <= n && n <= 255,
        NumRule::Codes(_) => 0 <= n && n <= 18_446_744_073_709_551_615,
        NumRule::Int | NumRule::Decimal | NumRule::Boolean(_) | NumRule::Code(_) => true,
    }
}
