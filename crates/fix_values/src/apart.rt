//! What is required of the codes and listed values of a rule.

ghost use Rattle.std.specs.Prelude.{◌≡◌};
ghost use Rattle.std.specs.List.{list_all, list_any};
ghost use Rattle.fix_values.specs.Codes as codes;
ghost use Rattle.fix_values.specs.Codes.{is_apart, same_number, same_text, same_truth};

use crate::Code;
use crate::number::{boolean_text, is_truth};
use crate::rule::MOST_BYTES;
use sbe_types::Named;

/// Whether each code's text has 1 to [`MOST_BYTES`] bytes.
pub fn are_short(list: &[Code]) -> bool
    ensures { result ≡ list_all codes.has_short_text list.now }
{
    list.iter().all(|code| !code.text.is_empty() && code.text.len() <= MOST_BYTES)
}

/// Whether each code can be one of a set: its text has one byte, and its number is a bit from 0 to 63.
pub fn are_choices(list: &[Code]) -> bool
    ensures { result ≡ list_all codes.is_choice list.now }
{
    list.iter().all(is_choice)
}

fn is_choice(code: &Code) -> bool
    ensures { result ≡ codes.is_choice code.now }
{
    let number = code.number;
    code.text.len() == 1 && 0 <= number && number <= 63
}

/// Whether no two codes have the same number.
pub fn are_numbers_apart(list: &[Code]) -> bool
    ensures { result ≡ is_apart same_number list.now }
{
    for i in 0..list.len() {
        if has_number(&list[i + 1..], &list[i]) {
            return false;
        }
    }
    true
}

fn has_number(list: &[Code], other: &Code) -> bool
    ensures { result ≡ list_any (same_number other.now) list.now }
{
    list.iter().any(|code| other.number == code.number)
}

/// Whether no two codes have the same text.
pub fn are_texts_apart(list: &[Code]) -> bool
    ensures { result ≡ is_apart same_text list.now }
{
    for i in 0..list.len() {
        if has_text(&list[i + 1..], &list[i]) {
            return false;
        }
    }
    true
}

fn has_text(list: &[Code], other: &Code) -> bool
    ensures { result ≡ list_any (same_text other.now) list.now }
{
    list.iter()
        .any(|code| other.text.as_slice() == code.text.as_slice())
}

/// Whether no two listed values are written as the same Boolean byte.
pub fn are_truths_apart(list: &[Named]) -> bool
    ensures { result ≡ is_apart same_truth list.now }
{
    for i in 0..list.len() {
        if has_truth(&list[i + 1..], &list[i]) {
            return false;
        }
    }
    true
}

fn has_truth(list: &[Named], other: &Named) -> bool
    ensures { result ≡ list_any (same_truth other.now) list.now }
{
    list.iter().any(|name| is_same_truth(other, name))
}

fn is_same_truth(one: &Named, other: &Named) -> bool
    ensures { result ≡ same_truth one.now other.now }
{
    match boolean_text(one.number) {
        Some(byte) => is_truth(byte, boolean_text(other.number)),
        None => false,
    }
}
