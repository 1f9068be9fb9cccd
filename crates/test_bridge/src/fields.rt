//! Rows of fields: a schema of one message with one field, a datatype of a mapping, and a body; the text that is written of it.

ghost use Rattle.std.specs.Prelude.{◌≤◌};
ghost use Rattle.tagvalue_codec.specs.declared.room.TheConstants.{TEXT_LIMIT};

use anyhow::{Result, bail};
use bridge_table::{CodeTable, Datatype, field_rule};
use flyweight_view::{BlockView, validate};
use layout_tables::Layout;
use library_examples::load;
use lists::List;
use map_types::CodeEl;
use message_walk::{Cause, Halt, Lead, Put, PutValue};
use std::alloc::Global;
use tagvalue_codec::FixWriter;
use test_tables::{Row, spelled};
use value_texts::ValueText;

/// A row: the schema, the datatype, and the body. The text of the message with the field of tag 58, or why there is none.
pub fn field_answer(alloc: Global, row: &Row) -> Result<String> {
    let Ok(layout) = load(alloc, row.text(0)?.as_bytes()) else {
        bail!("the schema is refused");
    };
    let body = row.bytes(alloc, 2)?;
    block_answer(alloc, &layout, row.text(1)?, body.as_slice())
}

fn block_answer(alloc: Global, layout: &Layout, datatype: &str, body: &[u8]) -> Result<String> {
    match validate(layout, body) {
        Ok(view) => root_answer(alloc, &view.root(), datatype),
        Err(_) => bail!("the body is refused"),
    }
}

fn root_answer(alloc: Global, root: &BlockView<'_>, datatype: &str) -> Result<String> {
    let (count, _, _) = root.counts();
    if count == 0 {
        bail!("the message has no field");
    }
    match row_of(alloc, root, datatype)? {
        Some(text) => text_answer(alloc, &text, root),
        None => Ok(format!(in alloc; "no rule")?),
    }
}

/// The row of the first field.
fn row_of(alloc: Global, root: &BlockView<'_>, datatype: &str) -> Result<Option<ValueText>> {
    let (count, _, _) = root.counts();
    if count == 0 {
        bail!("the message has no field");
    }
    let Some(field) = root.field(0) else {
        bail!("the field is absent");
    };
    let codes = codes_of(alloc, datatype)?;
    let table = CodeTable::new(alloc, codes.as_slice())?;
    let datatype = datatype_of(datatype, table)?;
    match field_rule(alloc, field.kind, &datatype)? {
        Some(rule) => Ok(ValueText::new(alloc, rule)?),
        None => Ok(None),
    }
}

/// The codes of a datatype that is spelled `codes` or `characters` and `name=text` for each.
fn codes_of(alloc: Global, datatype: &str) -> Result<List<CodeEl>> {
    let mut codes = List::new(alloc);
    for word in datatype.split(' ') {
        if let Some((name, text)) = word.split_once('=') {
            codes.push(CodeEl {
                name: List::from_slice(alloc, name.as_bytes())?,
                value: List::from_slice(alloc, text.as_bytes())?,
            })?;
        }
    }
    Ok(codes)
}

fn datatype_of<'a>(word: &str, table: CodeTable<'a>) -> Result<Datatype<'a>> {
    Ok(match word {
        "int" => Datatype::WholeNumber,
        "float" => Datatype::DecimalNumber,
        "char" => Datatype::Character,
        "String" => Datatype::Text,
        "Boolean" => Datatype::Boolean,
        "UTCTimestamp" => Datatype::Timestamp,
        "UTCTimeOnly" => Datatype::TimeOfDay,
        "UTCDateOnly" => Datatype::CalendarDay,
        "MonthYear" => Datatype::MonthOfYear,
        _ if word.starts_with("codes") => Datatype::CodeSet(table),
        _ if word.starts_with("characters") => Datatype::CharacterSet(table),
        _ => bail!("there is no such datatype"),
    })
}

/// The text with the field of tag 58, which is the same by the rule and by the bytes at their place.
fn text_answer(alloc: Global, row: &ValueText, root: &BlockView<'_>) -> Result<String> {
    let by_rule = written(alloc, row, root, 100, false)?;
    let by_bytes = written(alloc, row, root, 200, true)?;
    if by_rule.as_str() != by_bytes.as_str() && !by_rule.as_str().ends_with(" bytes") {
        bail!("the bytes tell another text");
    }
    Ok(by_rule)
}

/// The text of at most `limit` bytes with the field of tag 58, by the rule or by the bytes at their place.
fn written(
    alloc: Global,
    row: &ValueText,
    root: &BlockView<'_>,
    limit: usize,
    at_place: bool,
) -> Result<String>
    requires { limit ≤ TEXT_LIMIT }
{
    let Some(lead) = Lead::new(58) else {
        bail!("there is no such tag");
    };
    let (count, _, _) = root.counts();
    if count == 0 {
        bail!("the message has no field");
    }
    let mut out = FixWriter::new(alloc, limit)?;
    match out.start(b"FIX.4.4", b"T") {
        Ok(()) => {}
        Err(_) => bail!("there is no room"),
    }
    let mut halt = Halt::new();
    let put = if at_place {
        row.put_at(&lead, root, &root.by_table(), 0, &mut out, &mut halt)
    } else {
        row.put(&lead, root, 0, &mut out, &mut halt)
    };
    match put {
        Put::Written => {
            out.finish();
            spelled(alloc, out.bytes())
        }
        Put::Nothing => Ok(format!(in alloc; "nothing")?),
        Put::Refused => refusal_answer(alloc, &halt),
    }
}

fn refusal_answer(alloc: Global, halt: &Halt) -> Result<String> {
    match halt.cause {
        Cause::NoText(why) => Ok(format!(in alloc; "{why}")?),
        Cause::NoDelimiter => Ok(format!(in alloc; "no delimiter")?),
        Cause::Full(needed) => Ok(format!(in alloc; "{needed} bytes")?),
    }
}
