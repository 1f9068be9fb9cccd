// Makes rows from rules.
ghost use Rattle.std.specs.Prelude.{◌≡◌, List, is_some, IfSome};
ghost use Rattle.sbe_types.specs.declared.kind.Named.{Named as AnyNamed};
ghost use Rattle.bridge_rules.specs.Table.{every_byte, every_number};
ghost use Rattle.bridge_table.specs.Rows.{rule_with};
ghost use Rattle.fix_values.specs.declared.rule.NumRule.TheVariants as spelling;
ghost use Rattle.fix_values.specs.Values.{can_read};
ghost use Rattle.text_values.specs.declared.row.ConstValue.TheVariants as fixed;
ghost use Rattle.text_values.specs.declared.row.TextValue.TheVariants as rows;
ghost use Rattle.text_values.specs.Made.{const_row, enum_leaf, enum_spelling, is_readable, is_readable_const, rule_row};
ghost use Rattle.text_values.specs.Rows.{Reads};

use crate::reading::{ChoiceReading, Reading};
use crate::row::{ConstValue, TextValue};
use bridge_table::{ConstRule, EnumRule, FieldRule};
use fix_values::{CodeList, NumRule};
use sbe_types::{Leaf, LeafShape, Presence, Prim};

impl TextValue {
    /// The row of a rule. `None` if the texts of the rule's codes are empty, too long or not distinct, which they never
    /// are in a valid mapping.
    pub fn new(rule: FieldRule) -> Option<TextValue>
        ensures reads { IfSome result (λ row. (names : List AnyNamed) → Reads row (rule_with names rule)) }
        ensures some { is_some result ≡ is_readable rule }
    {
        row_of(rule)
    }
}

fn row_of(rule: FieldRule) -> Option<TextValue>
    ensures same { IfSome result (λ row. row ≡ rule_row rule) }
    ensures some { is_some result ≡ is_readable rule }
{
    match rule {
        FieldRule::Integer(leaf) => number(NumRule::Int, leaf),
        FieldRule::IntegerDecimal(leaf) => number(NumRule::Decimal, leaf),
        FieldRule::SingleChar(leaf) => number(NumRule::Char, leaf),
        FieldRule::FixedDecimal(leaf, exponent) => Some(TextValue::Decimal(leaf, exponent)),
        FieldRule::FloatingDecimal(mantissa, exponent) => {
            Some(TextValue::Floating(mantissa, exponent))
        }
        FieldRule::CharArray(leaf) => Some(TextValue::Passage(leaf)),
        FieldRule::Enum(rule) => listed(rule),
        FieldRule::ChoiceSet(codes) => choices(codes),
        FieldRule::RawData(length) => Some(TextValue::Octets(length)),
        FieldRule::TextData(length) => Some(TextValue::Words(length)),
        FieldRule::DayCount(leaf) => Some(TextValue::Day(leaf)),
        FieldRule::Moment(epoch, leaf, unit) => Some(TextValue::Moment(epoch, leaf, unit)),
        FieldRule::MonthYear(leaves) => Some(TextValue::Month(leaves)),
        FieldRule::Const(rule) => constant(rule),
    }
}

fn number(rule: NumRule, leaf: Leaf) -> Option<TextValue>
    ensures same { IfSome result (λ row. row ≡ rows.Number rule leaf) }
    ensures some { is_some result ≡ can_read rule }
{
    match Reading::new(rule) {
        Some(reading) => Some(TextValue::Number(reading, leaf)),
        None => None,
    }
}

fn listed(rule: EnumRule) -> Option<TextValue>
    ensures same { IfSome result (λ row. row ≡ rows.Listed (enum_spelling rule) (enum_leaf rule)) }
    ensures some { is_some result ≡ can_read (enum_spelling rule) }
{
    let leaf = enum_leaf(&rule);
    match Reading::new(enum_spelling(rule)) {
        Some(reading) => Some(TextValue::Listed(reading, leaf)),
        None => None,
    }
}

fn choices(codes: CodeList) -> Option<TextValue>
    ensures same { IfSome result (λ row. row ≡ rows.Choices (spelling.Codes codes)) }
    ensures some { is_some result ≡ can_read (spelling.Codes codes) }
{
    match ChoiceReading::new(codes) {
        Some(reading) => Some(TextValue::Choices(reading)),
        None => None,
    }
}

/// The type of an enum.
fn enum_leaf(rule: &EnumRule) -> Leaf
    ensures { result ≡ enum_leaf rule.now }
{
    match rule {
        EnumRule::Code(leaf, _) => *leaf,
        EnumRule::Number(leaf, _) => *leaf,
        EnumRule::Boolean(leaf, _) => *leaf,
    }
}

/// How the numbers of an enum are written.
fn enum_spelling(rule: EnumRule) -> NumRule
    ensures { result ≡ enum_spelling rule }
{
    match rule {
        EnumRule::Code(_, codes) => NumRule::Code(codes),
        EnumRule::Number(_, codes) => NumRule::Code(codes),
        EnumRule::Boolean(_, names) => NumRule::Boolean(names),
    }
}

/// The row of a constant.
fn constant(rule: ConstRule) -> Option<TextValue>
    ensures same { IfSome result (λ row. row ≡ rows.Const (const_row rule)) }
    ensures some { is_some result ≡ is_readable_const rule }
{
    match constant_of(rule) {
        Some(own) => Some(TextValue::Const(own)),
        None => None,
    }
}

fn constant_of(rule: ConstRule) -> Option<ConstValue>
    ensures same { IfSome result (λ own. own ≡ const_row rule) }
    ensures some { is_some result ≡ is_readable_const rule }
{
    match rule {
        ConstRule::Text(text) => Some(ConstValue::Text(text)),
        ConstRule::Character(byte) => fixed(NumRule::Char, every_byte(byte), byte as i128),
        ConstRule::Integer(n) => fixed(NumRule::Int, every_number(Prim::I64), n),
        ConstRule::Decimal(n) => fixed(NumRule::Decimal, every_number(Prim::I64), n),
        ConstRule::Day(n) => Some(ConstValue::Day(n)),
        ConstRule::Enum(rule, n) => fixed_listed(rule, n),
    }
}

fn fixed(rule: NumRule, leaf: Leaf, n: i128) -> Option<ConstValue>
    ensures same { IfSome result (λ own. own ≡ fixed.Number rule leaf n) }
    ensures some { is_some result ≡ can_read rule }
{
    match Reading::new(rule) {
        Some(reading) => Some(ConstValue::Number(reading, leaf, n)),
        None => None,
    }
}

fn fixed_listed(rule: EnumRule, n: i128) -> Option<ConstValue>
    ensures same { IfSome result (λ own. own ≡ fixed.Listed (enum_spelling rule) (enum_leaf rule) n) }
    ensures some { is_some result ≡ can_read (enum_spelling rule) }
{
    let leaf = enum_leaf(&rule);
    match Reading::new(enum_spelling(rule)) {
        Some(reading) => Some(ConstValue::Listed(reading, leaf, n)),
        None => None,
    }
}

/// A type whose range contains every number of an i128.
pub(crate) fn every_number(prim: Prim) -> Leaf
    ensures { result ≡ every_number prim }
{
    Leaf {
        prim,
        length: 1,
        shape: LeafShape::Number,
        presence: Presence::Required,
        null: 0,
        low: i128::MIN,
        high: i128::MAX,
    }
}

/// A type whose range contains every byte, including this one.
fn every_byte(byte: u8) -> Leaf
    ensures { result ≡ every_byte byte }
{
    Leaf {
        prim: Prim::Char,
        length: 1,
        shape: LeafShape::Number,
        presence: Presence::Required,
        null: 0,
        low: 0,
        high: 255 + byte as i128,
    }
}
