ghost use Rattle.std.specs.Prelude.{◌≡◌, ◌∷◌, [], All, List, map, Some, None, Option, option_map, IfOk};
ghost use Rattle.sbe_types.specs.declared.kind.Leaf.{Leaf as LeafOf};
ghost use Rattle.sbe_types.specs.declared.kind.Named.{Named};
ghost use Rattle.fix_values.specs.declared.rule.Code.{Code};
ghost use Rattle.bridge_rules.specs.Rules.{Rule, enum_code, enum_number};
ghost use Rattle.bridge_rules.specs.Table.{by_codes, enum_rule, set_rule};
ghost use Rattle.bridge_table.specs.Codes.{datatype_of_row, named_codes, IsByteOf};
ghost use Rattle.bridge_table.specs.Rows.{enum_with, rule_with};

use crate::codes::{
    are_digits, are_single, are_texts_apart, are_truths_apart, choice_codes, codes_of, is_char,
    number_codes,
};
use crate::datatype::{CodeTable, Datatype};
use crate::rule::{EnumRule, FieldRule};
use fix_values::CodeList;
use lists::{List, NoMem};
use sbe_types::{Leaf, Named, NamedList};
use std::alloc::Global;

/// The rule for an enum and the fields of a datatype, if the table has one.
pub fn enum_rule(
    alloc: Global,
    leaf: &Leaf,
    names: &[Named],
    datatype: &Datatype,
) -> Result<Option<EnumRule>, NoMem>
    requires bytes { All (IsByteOf leaf.now.prim) names.now }
    ensures { IfOk result (λ rule. option_map (enum_with names.now) rule
        ≡ enum_rule leaf.now names.now (datatype_of_row datatype.now)) }
{
    match datatype {
        Datatype::CodeSet(table) => {
            let codes = codes_of(alloc, leaf.prim, table, names)?;
            by_codes(alloc, leaf, codes)
        }
        Datatype::Character | Datatype::Text => {
            let codes = number_codes(alloc, leaf.prim, names)?;
            by_codes(alloc, leaf, codes)
        }
        Datatype::WholeNumber => number_rule(alloc, leaf, names),
        Datatype::Boolean => truth_rule(alloc, leaf, names),
        _ => Ok(None),
    }
}

/// An enum with the codes of its valid values, if no two have the same text.
fn by_codes(alloc: Global, leaf: &Leaf, codes: CodeList) -> Result<Option<EnumRule>, NoMem>
    ensures { IfOk result (λ rule. (names : List Named) → option_map (enum_with names) rule ≡ by_codes enum_code leaf.now names codes) }
{
    if !are_texts_apart(alloc, codes.as_slice())? {
        return Ok(None);
    }
    Ok(Some(EnumRule::Code(*leaf, codes)))
}

/// An enum among integers: its encoding is a number, or each valid value is a digit.
fn number_rule(alloc: Global, leaf: &Leaf, names: &[Named]) -> Result<Option<EnumRule>, NoMem>
    requires bytes { All (IsByteOf leaf.now.prim) names.now }
    ensures { IfOk result (λ rule. option_map (enum_with names.now) rule
        ≡ enum_rule leaf.now names.now (datatype_of_row Datatype.WholeNumber)) }
{
    if is_char(leaf.prim) && !are_digits(names) {
        return Ok(None);
    }
    let codes = number_codes(alloc, leaf.prim, names)?;
    if !are_texts_apart(alloc, codes.as_slice())? {
        return Ok(None);
    }
    Ok(Some(EnumRule::Number(*leaf, codes)))
}

/// An enum among Booleans, if no two valid values are written as the same Boolean.
fn truth_rule(alloc: Global, leaf: &Leaf, names: &[Named]) -> Result<Option<EnumRule>, NoMem>
    ensures { IfOk result (λ rule. option_map (enum_with names.now) rule
        ≡ enum_rule leaf.now names.now (datatype_of_row Datatype.Boolean)) }
{
    if !are_truths_apart(names) {
        return Ok(None);
    }
    Ok(Some(EnumRule::Boolean(*leaf, copied(alloc, names)?)))
}

fn copied(alloc: Global, names: &[Named]) -> Result<NamedList, NoMem>
    ensures { IfOk result (λ it. it ≡ names.now) }
{
    let mut out = List::new(alloc);
    for name in names {
        out.push(name.copy(alloc)?)?;
    }
    Ok(out)
}

/// The rule for a set and the fields of a datatype, if the table has one.
pub fn set_rule(
    alloc: Global,
    names: &[Named],
    datatype: &Datatype,
) -> Result<Option<FieldRule>, NoMem>
    ensures { IfOk result (λ rule. option_map (rule_with names.now) rule ≡ set_rule names.now (datatype_of_row datatype.now)) }
{
    match datatype {
        Datatype::CharacterSet(table) => choice_rule(alloc, names, table),
        _ => Ok(None),
    }
}

/// A set of characters, if no two choices have the same one.
fn choice_rule(
    alloc: Global,
    names: &[Named],
    table: &CodeTable,
) -> Result<Option<FieldRule>, NoMem>
    ensures { IfOk result (λ rule. option_map (rule_with names.now) rule
        ≡ set_rule names.now (datatype_of_row (Datatype.CharacterSet table.now))) }
{
    if !are_single(table.codes()) {
        return Ok(None);
    }
    let codes = choice_codes(alloc, table, names)?;
    if !are_texts_apart(alloc, codes.as_slice())? {
        return Ok(None);
    }
    Ok(Some(FieldRule::ChoiceSet(codes)))
}
