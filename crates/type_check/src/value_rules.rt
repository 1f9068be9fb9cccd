ghost use Rattle.std.specs.Prelude.{◌≡◌, [], is_none, IfOk};
ghost use Rattle.std.specs.List.{list_any};
ghost use Rattle.std.specs.Ordering.{int_eq};
ghost use Rattle.sbe_types.specs.Numbers.{prim_width};
ghost use Rattle.schema_rules.specs.Judging.{Gives, first_of};
ghost use Rattle.schema_rules.specs.Ranges.{value_number, bit_number};
ghost use Rattle.schema_rules.specs.Names.{names_fraction};
ghost use Rattle.schema_rules.specs.TypeRules.{is_enum_primitive, is_set_primitive, is_encoding, has_bad_value, has_bad_bit, has_name_twice, has_number_twice, stands_twice, has_value_twice, has_bit_twice, enum_rules, set_rules};

use crate::name_table::NameTable;
use crate::refusals::refuse;
use lists::{List, NoMem};
use sbe_types::{ChoiceEl, EnumEl, Named, Prim, SetEl, ValidValueEl};
use schema_rules::{CCode, CheckErr, Encoding};
use std::alloc::Global;
use type_facts::{Types, bit_number, choices, encoding_named, valid_values, value_number};

/// Applies the rules for an enum.
pub fn judge_enum(alloc: Global, types: &Types, e: &EnumEl) -> Result<(), CheckErr>
    ensures { Gives result (first_of (enum_rules types.now e.now)) }
{
    let name = e.encoding_type.as_slice();
    if types.named(name).is_none() {
        return refuse(alloc, CCode::UnknownType);
    }
    if names_fraction(types, name) {
        return refuse(alloc, CCode::Float);
    }
    let encoding = encoding_named(types, name);
    if !is_encoding_of_enum(encoding) || e.children.is_empty() {
        return refuse(alloc, CCode::BadEncoding);
    }
    if has_bad_value(encoding, e.children.as_slice()) {
        return refuse(alloc, CCode::BadNumber);
    }
    if has_value_twice(alloc, encoding, e)? {
        return refuse(alloc, CCode::DuplicateValue);
    }
    Ok(())
}

/// Applies the rules for a set.
pub fn judge_set(alloc: Global, types: &Types, s: &SetEl) -> Result<(), CheckErr>
    ensures { Gives result (first_of (set_rules types.now s.now)) }
{
    let name = s.encoding_type.as_slice();
    if types.named(name).is_none() {
        return refuse(alloc, CCode::UnknownType);
    }
    if names_fraction(types, name) {
        return refuse(alloc, CCode::Float);
    }
    let encoding = encoding_named(types, name);
    if !is_encoding_of_set(encoding) {
        return refuse(alloc, CCode::BadEncoding);
    }
    if has_bad_bit(encoding, s) {
        return refuse(alloc, CCode::BadNumber);
    }
    if has_bit_twice(alloc, encoding, s)? {
        return refuse(alloc, CCode::DuplicateValue);
    }
    Ok(())
}

/// Whether a name is float or double, and no type with that name is declared.
pub fn names_fraction(types: &Types, name: &[u8]) -> bool
    ensures { result ≡ names_fraction types.now name.now }
{
    types.declared(name).is_none() && (name == "float".as_bytes() || name == "double".as_bytes())
}

fn is_encoding_of_enum(encoding: Option<Encoding>) -> bool
    ensures { result ≡ is_encoding is_enum_primitive encoding }
{
    match encoding {
        Some(e) => is_enum_primitive(e.leaf.prim) && e.leaf.length == 1,
        None => false,
    }
}

fn is_enum_primitive(prim: Prim) -> bool
    ensures { result ≡ is_enum_primitive prim }
{
    match prim {
        Prim::Char | Prim::U8 | Prim::U16 => true,
        Prim::U32 | Prim::U64 | Prim::I8 | Prim::I16 | Prim::I32 | Prim::I64 => false,
    }
}

fn is_encoding_of_set(encoding: Option<Encoding>) -> bool
    ensures { result ≡ is_encoding is_set_primitive encoding }
{
    match encoding {
        Some(e) => is_set_primitive(e.leaf.prim) && e.leaf.length == 1,
        None => false,
    }
}

fn is_set_primitive(prim: Prim) -> bool
    ensures { result ≡ is_set_primitive prim }
{
    match prim {
        Prim::U8 | Prim::U16 | Prim::U32 | Prim::U64 => true,
        Prim::Char | Prim::I8 | Prim::I16 | Prim::I32 | Prim::I64 => false,
    }
}

fn has_bad_value(encoding: Option<Encoding>, values: &[ValidValueEl]) -> bool
    ensures { result ≡ has_bad_value encoding values.now }
{
    match encoding {
        Some(e) => is_any_unread(e.leaf.prim, values),
        None => false,
    }
}

fn is_any_unread(prim: Prim, values: &[ValidValueEl]) -> bool
    ensures { result ≡ list_any (λ v. is_none (value_number prim v.text)) values.now }
{
    for value in values {
        if value_number(prim, value.text.as_slice()).is_none() {
            return true;
        }
    }
    false
}

fn has_bad_bit(encoding: Option<Encoding>, s: &SetEl) -> bool
    ensures { result ≡ has_bad_bit encoding s.now }
{
    match encoding {
        Some(e) => is_any_bit_unread(e.leaf.prim, s.children.as_slice()),
        None => false,
    }
}

fn is_any_bit_unread(prim: Prim, choices: &[ChoiceEl]) -> bool
    ensures { result ≡ list_any (λ c. is_none (bit_number (prim_width prim) c.text)) choices.now }
{
    for choice in choices {
        if bit_number(prim, choice.text.as_slice()).is_none() {
            return true;
        }
    }
    false
}

fn has_value_twice(alloc: Global, encoding: Option<Encoding>, e: &EnumEl) -> Result<bool, NoMem>
    ensures { IfOk result (λ twice. twice ≡ has_value_twice encoding e.now) }
{
    match encoding {
        Some(encoding) => {
            let named = valid_values(alloc, encoding.leaf.prim, e.children.as_slice())?;
            stands_twice(alloc, named.as_slice())
        }
        None => Ok(false),
    }
}

fn has_bit_twice(alloc: Global, encoding: Option<Encoding>, s: &SetEl) -> Result<bool, NoMem>
    ensures { IfOk result (λ twice. twice ≡ has_bit_twice encoding s.now) }
{
    match encoding {
        Some(encoding) => {
            let named = choices(alloc, encoding.leaf.prim, s.children.as_slice())?;
            stands_twice(alloc, named.as_slice())
        }
        None => Ok(false),
    }
}

/// Whether a name or a number occurs twice.
fn stands_twice(alloc: Global, values: &[Named]) -> Result<bool, NoMem>
    ensures { IfOk result (λ twice. twice ≡ stands_twice values.now) }
{
    Ok(has_name_twice(alloc, values)? || has_number_twice(alloc, values)?)
}

fn has_name_twice(alloc: Global, values: &[Named]) -> Result<bool, NoMem>
    ensures { IfOk result (λ twice. twice ≡ has_name_twice [] values.now) }
{
    let mut names = NameTable::new(alloc);
    for value in values {
        if names.contains(value.name.as_slice()) {
            return Ok(true);
        }
        names.push(alloc, value.name.as_slice())?;
    }
    Ok(false)
}

fn has_number_twice(alloc: Global, values: &[Named]) -> Result<bool, NoMem>
    ensures { IfOk result (λ twice. twice ≡ has_number_twice [] values.now) }
{
    let mut numbers = List::new(alloc);
    for value in values {
        if is_number_among(numbers.as_slice(), value) {
            return Ok(true);
        }
        numbers.push(value.number)?;
    }
    Ok(false)
}

fn is_number_among(numbers: &[i128], value: &Named) -> bool
    ensures { result ≡ list_any (int_eq value.now.number) numbers.now }
{
    for number in numbers {
        if value.number == *number {
            return true;
        }
    }
    false
}
