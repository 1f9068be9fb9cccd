ghost use Rattle.std.specs.Prelude.{◌≡◌, ◌∷◌, [], IfOk, option_map, pos};
ghost use Rattle.sbe_types.specs.declared.kind.Kind.TheVariants.{Const};
ghost use Rattle.sbe_types.specs.declared.kind.ConstValue.TheVariants.{Code};
ghost use Rattle.schema_facts.specs.InOrder.{IsCodeInOrder, IsConstantInOrder};
ghost use Rattle.bridge_rules.specs.Table.{const_rule, every_number, number_constant, text_constant};
ghost use Rattle.bridge_table.specs.Codes.{datatype_of_row};
ghost use Rattle.bridge_table.specs.Rows.{names_in, rule_with};

use crate::datatype::Datatype;
use crate::enums::enum_rule;
use crate::rule::{ConstRule, FieldRule};
use lists::{List, NoMem};
use sbe_types::{ConstValue, Leaf, LeafShape, Named, NamedList, Presence, Prim};
use std::alloc::Global;

/// The rule for a constant, which counts as the kind of its value, and the fields of a datatype, if the table has one.
pub fn const_rule(
    alloc: Global,
    value: &ConstValue,
    datatype: &Datatype,
) -> Result<Option<FieldRule>, NoMem>
    requires order { IsConstantInOrder value.now }
    ensures { IfOk result (λ rule. option_map (rule_with (names_in (Const value.now))) rule ≡ const_rule value.now (datatype_of_row datatype.now)) }
{
    match value {
        ConstValue::Num(number) => Ok(number_constant(number, datatype)),
        ConstValue::Text(text) => text_constant(alloc, text.as_slice(), datatype),
        ConstValue::Code(prim, name) => code_constant(alloc, *prim, name, datatype),
    }
}

fn number_constant(number: &i128, datatype: &Datatype) -> Option<FieldRule>
    ensures { option_map (rule_with []) result ≡ number_constant number.now (datatype_of_row datatype.now) }
{
    match datatype {
        Datatype::WholeNumber => Some(FieldRule::Const(ConstRule::Integer(*number))),
        Datatype::DecimalNumber => Some(FieldRule::Const(ConstRule::Decimal(*number))),
        Datatype::CalendarDay => Some(FieldRule::Const(ConstRule::Day(*number))),
        _ => None,
    }
}

/// A text among texts, and also among chars if it has one byte.
fn text_constant(
    alloc: Global,
    text: &[u8],
    datatype: &Datatype,
) -> Result<Option<FieldRule>, NoMem>
    ensures { IfOk result (λ rule. option_map (rule_with []) rule ≡ text_constant text.now (datatype_of_row datatype.now)) }
{
    match datatype {
        Datatype::Text => Ok(Some(FieldRule::Const(ConstRule::Text(List::from_slice(
            alloc, text,
        )?)))),
        Datatype::Character => Ok(character_constant(text)),
        _ => Ok(None),
    }
}

fn character_constant(text: &[u8]) -> Option<FieldRule>
    ensures { option_map (rule_with []) result ≡ text_constant text.now (datatype_of_row Datatype.Character) }
{
    match text {
        [byte] => Some(FieldRule::Const(ConstRule::Character(*byte))),
        _ => None,
    }
}

/// A valid value of an enum counts as an enum that lists this one value.
fn code_constant(
    alloc: Global,
    prim: Prim,
    name: &Named,
    datatype: &Datatype,
) -> Result<Option<FieldRule>, NoMem>
    requires order { IsCodeInOrder prim name.now }
    ensures { IfOk result (λ rule. option_map (rule_with (name.now ∷ [])) rule ≡ const_rule (Code prim name.now) (datatype_of_row datatype.now)) }
{
    let names = one_name(alloc, name)?;
    match enum_rule(alloc, &every_number(prim), names.as_slice(), datatype)? {
        None => Ok(None),
        Some(rule) => Ok(Some(FieldRule::Const(ConstRule::Enum(rule, name.number)))),
    }
}

fn one_name(alloc: Global, name: &Named) -> Result<NamedList, NoMem>
    ensures { IfOk result (λ names. names ≡ name.now ∷ []) }
{
    let mut names = List::new(alloc);
    names.push(name.copy(alloc)?)?;
    Ok(names)
}

/// A type whose range contains every number of an i128.
fn every_number(prim: Prim) -> Leaf
    ensures { result ≡ every_number prim }
{
    Leaf {
        prim,
        length: 1,
        shape: LeafShape::Number,
        presence: Presence::Required,
        null: 0,
        low: i128::MIN,
        high: i128::MAX,
    }
}
