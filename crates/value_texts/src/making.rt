// Makes rows from rules.
ghost use Rattle.std.specs.Prelude.{◌≡◌, true, is_some, List, IfOk, IfSome};
ghost use Rattle.sbe_types.specs.declared.kind.Named.{Named as AnyNamed};
ghost use Rattle.fix_values.specs.Values.{can_show, is_asked, text_of};
ghost use Rattle.date_answers.specs.Answers.{day_shown};
ghost use Rattle.bridge_rules.specs.Texts.{field_text};
ghost use Rattle.bridge_table.specs.Rows.{rule_with};
ghost use Rattle.bridge_table.specs.declared.rule.FieldRule.TheVariants as field_rules;
ghost use Rattle.value_texts.specs.declared.row.TextRule.TheVariants as rows;
ghost use Rattle.value_texts.specs.Faces.{enum_leaf, IsFaceFor, IsRuleFace};
ghost use Rattle.value_texts.specs.Made.{const_shown, enum_spelling, is_spellable, is_spellable_const, kept_of, IsMadeFor};
ghost use Rattle.value_texts.specs.Rows.{const_text, Spells};

use crate::codes::codes_of;
use crate::face::{NumberFace, UNREAD};
use crate::moments::show_day_number;
use crate::row::{ConstText, TextRule, ValueText};
use crate::sets::SetSpelling;
use crate::spelling::Spelling;
use bridge_table::{ConstRule, EnumRule, FieldRule};
use fix_values::{NumRule, Short, V};
use lists::{List, NoMem};
use std::alloc::Global;

impl ValueText {
    /// The row of a rule. `None` for data, and if the texts of the rule's codes are empty or too long, or those of a set
    /// not distinct, which they never are in a valid mapping.
    ///
    /// # Errors
    ///
    /// If memory runs out.
    pub fn new(alloc: Global, rule: FieldRule) -> Result<Option<ValueText>, NoMem>
        ensures spells { IfOk result (λ made. IfSome made (λ row. (names : List AnyNamed) → Spells row (rule_with names rule))) }
        ensures some { IfOk result (λ made. is_some made ≡ is_spellable rule) }
    {
        let face = face_of(&rule);
        match text_rule(alloc, rule)? {
            Some(rule) => {
                let codes = codes_of(alloc, &rule, &face)?;
                Ok(Some(ValueText { rule, face, codes }))
            }
            None => Ok(None),
        }
    }
}

/// How the numbers of a rule's values are read.
fn face_of(rule: &FieldRule) -> NumberFace
    ensures { IsRuleFace result rule.now }
{
    match rule {
        FieldRule::Integer(leaf) => NumberFace::new(leaf),
        FieldRule::IntegerDecimal(leaf) => NumberFace::new(leaf),
        FieldRule::FixedDecimal(leaf, _) => NumberFace::new(leaf),
        FieldRule::SingleChar(leaf) => NumberFace::new(leaf),
        FieldRule::Enum(rule) => enum_face(rule),
        FieldRule::FloatingDecimal(_, _) => UNREAD,
        FieldRule::CharArray(_) => UNREAD,
        FieldRule::ChoiceSet(_) => UNREAD,
        FieldRule::DayCount(_) => UNREAD,
        FieldRule::Moment(_, _, _) => UNREAD,
        FieldRule::MonthYear(_) => UNREAD,
        FieldRule::Const(_) => UNREAD,
        FieldRule::RawData(_) => UNREAD,
        FieldRule::TextData(_) => UNREAD,
    }
}

/// How the numbers of an enum are read.
fn enum_face(rule: &EnumRule) -> NumberFace
    ensures { IsFaceFor result (enum_leaf rule.now) }
{
    match rule {
        EnumRule::Code(leaf, _) => NumberFace::new(leaf),
        EnumRule::Number(leaf, _) => NumberFace::new(leaf),
        EnumRule::Boolean(leaf, _) => NumberFace::new(leaf),
    }
}

/// The rule of texts.
fn text_rule(alloc: Global, rule: FieldRule) -> Result<Option<TextRule>, NoMem>
    ensures made { IfOk result (λ made. IfSome made (IsMadeFor rule)) }
    ensures some { IfOk result (λ made. is_some made ≡ is_spellable rule) }
{
    match rule {
        FieldRule::Integer(_) => Ok(number(NumRule::Int)),
        FieldRule::IntegerDecimal(_) => Ok(number(NumRule::Decimal)),
        FieldRule::SingleChar(_) => Ok(number(NumRule::Char)),
        FieldRule::FixedDecimal(_, exponent) => Ok(Some(TextRule::Decimal(exponent))),
        FieldRule::FloatingDecimal(mantissa, exponent) => {
            Ok(Some(TextRule::Floating(mantissa, exponent)))
        }
        FieldRule::CharArray(_) => Ok(Some(TextRule::Passage)),
        FieldRule::Enum(rule) => Ok(number(enum_rule(rule))),
        FieldRule::ChoiceSet(codes) => choices(alloc, NumRule::Codes(codes)),
        FieldRule::DayCount(_) => Ok(Some(TextRule::Day)),
        FieldRule::Moment(epoch, _, unit) => Ok(Some(TextRule::Moment(epoch, unit))),
        FieldRule::MonthYear(_) => Ok(Some(TextRule::Month)),
        FieldRule::Const(rule) => constant(alloc, rule),
        FieldRule::RawData(_) => Ok(None),
        FieldRule::TextData(_) => Ok(None),
    }
}

fn number(rule: NumRule) -> Option<TextRule>
    ensures same { IfSome result (λ row. row ≡ rows.Number rule) }
    ensures some { is_some result ≡ can_show rule }
{
    match Spelling::new(rule) {
        Some(spelling) => Some(TextRule::Number(spelling)),
        None => None,
    }
}

fn choices(alloc: Global, rule: NumRule) -> Result<Option<TextRule>, NoMem>
    ensures same { IfOk result (λ made. IfSome made (λ row. row ≡ rows.Choices rule)) }
    ensures some { IfOk result (λ made. is_some made ≡ can_show rule) }
{
    match SetSpelling::new(alloc, rule)? {
        Some(set) => Ok(Some(TextRule::Choices(set))),
        None => Ok(None),
    }
}

/// How the numbers of an enum are written.
fn enum_rule(rule: EnumRule) -> NumRule
    ensures { result ≡ enum_spelling rule }
{
    match rule {
        EnumRule::Code(_, codes) => NumRule::Code(codes),
        EnumRule::Number(_, codes) => NumRule::Code(codes),
        EnumRule::Boolean(_, names) => NumRule::Boolean(names),
    }
}

/// The row of a constant.
fn constant(alloc: Global, rule: ConstRule) -> Result<Option<TextRule>, NoMem>
    ensures made { IfOk result (λ made. IfSome made (IsMadeFor (field_rules.Const rule))) }
    ensures some { IfOk result (λ made. is_some made ≡ is_spellable_const rule) }
{
    match constant_text(alloc, rule)? {
        None => Ok(None),
        Some(text) => Ok(Some(TextRule::Const(text))),
    }
}

/// The text of a constant, or `None` if its codes can't be written.
fn constant_text(alloc: Global, rule: ConstRule) -> Result<Option<ConstText>, NoMem>
    ensures shown { IfOk result (λ made. IfSome made (λ text. const_text text ≡ const_shown rule)) }
    ensures some { IfOk result (λ made. is_some made ≡ is_spellable_const rule) }
{
    match rule {
        ConstRule::Text(text) => Ok(Some(ConstText::Given(text))),
        ConstRule::Character(byte) => number_text(alloc, NumRule::Char, byte as i128),
        ConstRule::Integer(n) => number_text(alloc, NumRule::Int, n),
        ConstRule::Decimal(n) => number_text(alloc, NumRule::Decimal, n),
        ConstRule::Day(n) => Ok(Some(day_text(alloc, n)?)),
        ConstRule::Enum(rule, n) => number_text(alloc, enum_rule(rule), n),
    }
}

/// The text of a constant that is a number.
fn number_text(alloc: Global, rule: NumRule, n: i128) -> Result<Option<ConstText>, NoMem>
    ensures shown { is_asked rule n ≡ true → IfOk result (λ made. IfSome made (λ text. const_text text ≡ field_text (text_of rule n))) }
    ensures some { IfOk result (λ made. is_some made ≡ can_show rule) }
{
    let Some(spelling) = Spelling::new(rule) else {
        return Ok(None);
    };
    let mut text = Short::new();
    let shown = spelling.show(n, &mut text);
    Ok(Some(kept(alloc, shown, &text)?))
}

/// The text of a constant that is a day.
fn day_text(alloc: Global, n: i128) -> Result<ConstText, NoMem>
    ensures { IfOk result (λ text. const_text text ≡ field_text (day_shown n)) }
{
    let mut text = Short::new();
    let shown = show_day_number(n, &mut text);
    kept(alloc, shown, &text)
}

/// A text that was written, or why there is none.
fn kept(alloc: Global, shown: Result<(), V>, text: &Short) -> Result<ConstText, NoMem>
    ensures { IfOk result (λ made. made ≡ kept_of shown text.now) }
{
    match shown {
        Ok(()) => Ok(ConstText::Given(List::from_slice(alloc, text.bytes())?)),
        Err(why) => Ok(ConstText::Missing(why)),
    }
}
