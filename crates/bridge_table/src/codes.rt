ghost use Rattle.std.specs.Prelude.{◌≡◌, ◌++◌, ◌<◌, ◌==◌, All, IfOk, OnOk, length};
ghost use Rattle.std.specs.List.{list_any, list_all};
ghost use Rattle.sbe_types.specs.Numbers.{natural};
ghost use Rattle.sbe_types.specs.declared.kind.Named.{Named};
ghost use Rattle.fix_values.specs.Codes.{boolean_text, is_apart, is_truth, same_text, same_truth};
ghost use Rattle.bridge_rules.specs.Rules.{is_char};
ghost use Rattle.bridge_rules.specs.Datatypes.{NamedCode};
ghost use Rattle.bridge_rules.specs.Table.{number_text, code_with, code_of, codes_of, number_codes, named_text, choice_code, choice_codes, is_digit};
ghost use Rattle.bridge_table.specs.Codes.{named_codes, option_list, IsByteOf};

use crate::datatype::CodeTable;
use fix_values::{Code, CodeList};
use indexmap::IndexSet;
use itoa::Buffer;
use lists::{List, NoMem, Text};
use map_types::CodeEl;
use sbe_types::{Named, Prim};
use std::alloc::Global;

/// The codes of an enum's valid values in a code set.
pub fn codes_of(
    alloc: Global,
    prim: Prim,
    table: &CodeTable,
    names: &[Named],
) -> Result<CodeList, NoMem>
    requires bytes { All (IsByteOf prim) names.now }
    ensures { IfOk result (λ codes. codes ≡ codes_of prim (named_codes table.now) names.now) }
{
    let mut codes = List::new(alloc);
    for name in names {
        let code = code_of(alloc, prim, table, name)?;
        push_code(&mut codes, code)?;
    }
    Ok(codes)
}

fn push_code(codes: &mut CodeList, code: Option<Code>) -> Result<(), NoMem>
    ensures { OnOk result (codes.new ≡ codes.old ++ option_list code) }
{
    match code {
        None => Ok(()),
        Some(code) => codes.push(code),
    }
}

/// The code of a valid value: the one with its name, otherwise the one with the text of its number.
fn code_of(
    alloc: Global,
    prim: Prim,
    table: &CodeTable,
    name: &Named,
) -> Result<Option<Code>, NoMem>
    requires byte { IsByteOf prim name.now }
    ensures { IfOk result (λ code. option_list code
        ≡ code_of prim (named_codes table.now) name.now (named_text (named_codes table.now) name.now.name)) }
{
    if let Some(text) = table.text_named(name.name.as_slice()) {
        return Ok(Some(code_with(alloc, name, text)?));
    }
    let text = number_text(alloc, prim, name)?;
    if !table.has_text(text.as_slice()) {
        return Ok(None);
    }
    Ok(Some(Code {
        number: name.number,
        text,
    }))
}

fn code_with(alloc: Global, name: &Named, text: &[u8]) -> Result<Code, NoMem>
    ensures { IfOk result (λ code. code ≡ code_with name.now text.now) }
{
    let text = List::from_slice(alloc, text)?;
    Ok(Code {
        number: name.number,
        text,
    })
}

/// The text of a valid value's number: the character, or digits.
fn number_text(alloc: Global, prim: Prim, name: &Named) -> Result<Text, NoMem>
    requires byte { IsByteOf prim name.now }
    ensures { IfOk result (λ text. text ≡ number_text prim name.now.number) }
{
    if is_char(prim) {
        return List::from_slice(alloc, &[byte_of(name.number)]);
    }
    let mut buffer = Buffer::new();
    List::from_slice(alloc, buffer.format(name.number).as_bytes())
}

/// A character's number as a byte.
fn byte_of(number: i128) -> u8
    requires small { natural number < 256 }
    ensures { result ≡ natural number }
{
    if number < 0 {
        return 0;
    }
    number as u8
}

/// Whether the primitive is a character.
pub fn is_char(prim: Prim) -> bool
    ensures { result ≡ is_char prim }
{
    match prim {
        Prim::Char => true,
        Prim::I8
        | Prim::I16
        | Prim::I32
        | Prim::I64
        | Prim::U8
        | Prim::U16
        | Prim::U32
        | Prim::U64 => false,
    }
}

/// Each valid value with the text of its number as code.
pub fn number_codes(alloc: Global, prim: Prim, names: &[Named]) -> Result<CodeList, NoMem>
    requires bytes { All (IsByteOf prim) names.now }
    ensures { IfOk result (λ codes. codes ≡ number_codes prim names.now) }
{
    let mut codes = List::new(alloc);
    for name in names {
        codes.push(Code {
            number: name.number,
            text: number_text(alloc, prim, name)?,
        })?;
    }
    Ok(codes)
}

/// The codes of a set's choices, which are found only by name.
pub fn choice_codes(alloc: Global, table: &CodeTable, names: &[Named]) -> Result<CodeList, NoMem>
    ensures { IfOk result (λ codes. codes ≡ choice_codes (named_codes table.now) names.now) }
{
    let mut codes = List::new(alloc);
    for name in names {
        let code = choice_code(alloc, table, name)?;
        push_code(&mut codes, code)?;
    }
    Ok(codes)
}

/// The code of a set's choice.
fn choice_code(alloc: Global, table: &CodeTable, name: &Named) -> Result<Option<Code>, NoMem>
    ensures { IfOk result (λ code. option_list code ≡ choice_code name.now (named_text (named_codes table.now) name.now.name)) }
{
    match table.text_named(name.name.as_slice()) {
        None => Ok(None),
        Some(text) => Ok(Some(code_with(alloc, name, text)?)),
    }
}

/// Whether the text of each code is one byte.
pub fn are_single(codes: &[CodeEl]) -> bool
    ensures { result ≡ list_all (λ (c : NamedCode). length c.text == 1) (named_codes codes.now) }
{
    for code in codes {
        if code.value.len() != 1 {
            return false;
        }
    }
    true
}

/// Whether the character of each valid value is a digit.
pub fn are_digits(names: &[Named]) -> bool
    ensures { result ≡ list_all is_digit names.now }
{
    names
        .iter()
        .all(|name| 48 <= name.number && name.number <= 57)
}

/// Whether no two codes have the same text: each is looked up once among those after it.
pub fn are_texts_apart(alloc: Global, list: &[Code]) -> Result<bool, NoMem>
    ensures { IfOk result (λ apart. apart ≡ is_apart same_text list.now) }
{
    let mut texts = IndexSet::with_capacity(alloc, list.len())?;
    let mut i = list.len();
    'codes: while i > 0 {
        i -= 1;
        if !texts.insert(list[i].text.as_slice())? {
            return Ok(false);
        }
    }
    Ok(true)
}

/// Whether no two valid values are written as the same Boolean. Linear, since of three that are written as one two are
/// the same.
pub fn are_truths_apart(list: &[Named]) -> bool
    ensures { result ≡ is_apart same_truth list.now }
{
    for i in 0..list.len() {
        if has_truth(&list[i + 1..], &list[i]) {
            return false;
        }
    }
    true
}

fn has_truth(list: &[Named], other: &Named) -> bool
    ensures { result ≡ list_any (same_truth other.now) list.now }
{
    match truth_in(other) {
        Some(byte) => has_byte(list, byte),
        None => false,
    }
}

/// Whether a valid value is written as this byte.
fn has_byte(list: &[Named], byte: u8) -> bool
    ensures { result ≡ list_any (λ (name : Named). is_truth byte (boolean_text name.number)) list.now }
{
    list.iter().any(|name| is_truth(byte, truth_in(name)))
}

/// The Boolean as which a valid value is written.
fn truth_in(name: &Named) -> Option<u8>
    ensures { result ≡ boolean_text name.now.number }
{
    truth_of(name.number)
}

fn is_truth(byte: u8, other: Option<u8>) -> bool
    ensures { result ≡ is_truth byte other }
{
    match other {
        Some(text) => byte == text,
        None => false,
    }
}

/// `Y` for 1 and the character `Y`, `N` for 0 and the character `N`.
fn truth_of(n: i128) -> Option<u8>
    ensures { result ≡ boolean_text n }
{
    if n == 1 || n == b'Y' as i128 {
        return Some(b'Y');
    }
    if n == 0 || n == b'N' as i128 {
        return Some(b'N');
    }
    None
}
