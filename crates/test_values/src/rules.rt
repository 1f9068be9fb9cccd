//! Numbers, decimals and texts of fields.

ghost use Rattle.std.specs.Prelude.{◌≡◌};
ghost use Rattle.fix_values.specs.Values.{is_asked};

use crate::leaves::{leaf_of, names_of};
use crate::marks::{number_read, shown, taken, used};
use anyhow::{Result, bail};
use fix_values::{
    Code, CodeList, Dec, NumRule, fit_decimal, read_decimal, read_num, read_text, show_decimal,
    show_num, show_text,
};
use lists::{Bytes, List};
use std::alloc::Global;
use test_tables::Row;

/// The answer to a row, or `None` if it names another call.
pub fn answer(alloc: Global, row: &Row) -> Result<Option<String>> {
    let text = match row.call() {
        "uses" => uses(alloc, &rule_of(alloc, row)?)?,
        "show_num" => num_shown(alloc, &rule_of(alloc, row)?, row.number(1)?)?,
        "read_num" => num_read(alloc, &rule_of(alloc, row)?, row)?,
        "show_decimal" => decimal_shown(alloc, row)?,
        "read_decimal" => decimal_read(alloc, row.bytes(alloc, 0)?.as_slice())?,
        "fit_decimal" => decimal_fitted(alloc, row)?,
        "show_text" => taken(alloc, show_text(row.bytes(alloc, 0)?.as_slice()))?,
        "read_text" => text_read(alloc, row)?,
        _ => return Ok(None),
    };
    Ok(Some(text))
}

/// A rule: a word, or `Boolean`, `Code` or `Codes` and an array of texts with their numbers.
fn rule_of(alloc: Global, row: &Row) -> Result<NumRule> {
    let text = row.text(0)?;
    match text.split_once(' ') {
        Some(("Boolean", names)) => Ok(NumRule::Boolean(names_of(alloc, names)?)),
        Some(("Code", codes)) => Ok(NumRule::Code(codes_of(alloc, codes)?)),
        Some(("Codes", codes)) => Ok(NumRule::Codes(codes_of(alloc, codes)?)),
        Some(_) => bail!("no rule: {text}"),
        None => bare_rule(text),
    }
}

fn bare_rule(word: &str) -> Result<NumRule> {
    match word {
        "Int" => Ok(NumRule::Int),
        "Decimal" => Ok(NumRule::Decimal),
        "Char" => Ok(NumRule::Char),
        _ => bail!("no rule: {word}"),
    }
}

fn codes_of(alloc: Global, text: &str) -> Result<CodeList> {
    let names = names_of(alloc, text)?;
    let mut codes = List::new(alloc);
    for name in names.as_slice() {
        codes.push(Code {
            number: name.number,
            text: Bytes::from_slice(alloc, name.name.as_slice())?,
        })?;
    }
    Ok(codes)
}

fn uses(alloc: Global, rule: &NumRule) -> Result<String> {
    let shows = rule.can_show();
    let reads = rule.can_read();
    Ok(format!(in alloc; "shows {shows} reads {reads}")?)
}

/// Whether the rule can be given the number.
fn is_asked(rule: &NumRule, n: i128) -> bool
    ensures { result ≡ is_asked rule.now n }
{
    match rule {
        NumRule::Char => 0 <= n && n <= 255,
        NumRule::Codes(_) => 0 <= n && n <= 18446744073709551615,
        NumRule::Int | NumRule::Decimal | NumRule::Boolean(_) | NumRule::Code(_) => true,
    }
}

fn num_shown(alloc: Global, rule: &NumRule, n: i128) -> Result<String> {
    if !rule.can_show() || !is_asked(rule, n) {
        bail!("the rule shows no such number");
    }
    let mut out = used();
    let answer = show_num(rule, n, &mut out);
    shown(alloc, answer, &out)
}

fn num_read(alloc: Global, rule: &NumRule, row: &Row) -> Result<String> {
    if !rule.can_read() {
        bail!("the rule reads nothing");
    }
    let leaf = leaf_of(alloc, row.text(1)?)?;
    let text = row.bytes(alloc, 2)?;
    number_read(alloc, read_num(rule, &leaf, text.as_slice()))
}

fn exponent_of(row: &Row, i: usize) -> Result<i32> {
    Ok(row.text(i)?.parse::<i32>()?)
}

fn decimal_shown(alloc: Global, row: &Row) -> Result<String> {
    let mut out = used();
    let answer = show_decimal(row.number(0)?, exponent_of(row, 1)?, &mut out);
    shown(alloc, answer, &out)
}

fn decimal_read(alloc: Global, text: &[u8]) -> Result<String> {
    match read_decimal(text) {
        Ok(dec) => {
            let mantissa = dec.mantissa;
            let exponent = dec.exponent;
            Ok(format!(in alloc; "{mantissa} {exponent}")?)
        }
        Err(v) => Ok(format!(in alloc; "{v}")?),
    }
}

fn decimal_fitted(alloc: Global, row: &Row) -> Result<String> {
    let dec = Dec {
        mantissa: row.number(0)?,
        exponent: exponent_of(row, 1)?,
    };
    let leaf = leaf_of(alloc, row.text(2)?)?;
    number_read(alloc, fit_decimal(&dec, &leaf, exponent_of(row, 3)?))
}

fn text_read(alloc: Global, row: &Row) -> Result<String> {
    let leaf = leaf_of(alloc, row.text(0)?)?;
    let text = row.bytes(alloc, 1)?;
    taken(alloc, read_text(&leaf, text.as_slice()))
}
