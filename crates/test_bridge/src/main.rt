//! Rows of mapping files, of schemas with mappings, of drawn messages, and of single fields and texts of tag-value messages.
#![tactic(auto)]

mod coverage;
mod drawn;
mod fields;
mod made;
mod mappings;
mod plans;
mod schemas;
mod texts;

use anyhow::{Result, bail};
use std::fs;
use test_tables::{Calls, Row, judge_tables};

/// The mapping that most rows of mappings change.
const ORDERS: &str = "orders.json";

/// The schema with a message for each kind of field, and one of data.
const KINDS: &str = "kinds.json";

/// The calls of all tables.
struct AllCalls;

impl Calls for AllCalls {
    fn answer(&self, rt: &HostRuntime, row: &Row) -> Result<String> {
        let alloc = rt.alloc();
        match row.call() {
            "coverage" => coverage_answer(rt, row),
            "kinds" => kinds_answer(rt, row),
            "cover" => plans::covers_answer(rt, row),
            "generate" => drawn::message_answer(rt, row),
            "alter" => drawn::altered_answer(alloc, row),
            "field" => fields::field_answer(alloc, row),
            "written" => texts::written_answer(alloc, row),
            "filled" => texts::filled_answer(alloc, row),
            _ => mapping_answer(rt, row),
        }
    }
}

/// The answer to a row about a mapping alone.
fn mapping_answer(rt: &HostRuntime, row: &Row) -> Result<String> {
    let alloc = rt.alloc();
    match row.call() {
        "mapping" => mappings::read_answer(alloc, row.bytes(alloc, 0)?.as_slice()),
        "changed" => {
            let text = fs::read_to_string(rt, ORDERS)?;
            let text = made::changed(alloc, text.as_str(), row)?;
            mappings::read_answer(alloc, text.as_bytes())
        }
        "fields" => {
            let text = made::of_fields(alloc, row.size(0)?)?;
            mappings::read_answer(alloc, text.as_bytes())
        }
        "doubled" => doubled_answer(rt, row, false),
        "doubled, and back" => doubled_answer(rt, row, true),
        "data_tags" => mappings::data_answer(alloc, row),
        "header_tags" => mappings::header_answer(alloc, row),
        _ => bail!("there is no such call"),
    }
}

/// A row: how many components refer twice to the previous one.
fn doubled_answer(rt: &HostRuntime, row: &Row, comes_back: bool) -> Result<String> {
    let text = made::of_doubled(rt.alloc(), row.size(0)?, comes_back)?;
    mappings::read_answer(rt.alloc(), text.as_bytes())
}

/// A row: a schema and a mapping.
fn coverage_answer(rt: &HostRuntime, row: &Row) -> Result<String> {
    let schema = row.bytes(rt.alloc(), 0)?;
    let mapping = row.bytes(rt.alloc(), 1)?;
    coverage::coverage_answer(rt.alloc(), schema.as_slice(), mapping.as_slice())
}

/// A row: a mapping, for the schema of all kinds.
fn kinds_answer(rt: &HostRuntime, row: &Row) -> Result<String> {
    let schema = fs::read_to_string(rt, KINDS)?;
    let mapping = row.bytes(rt.alloc(), 0)?;
    coverage::coverage_answer(rt.alloc(), schema.as_bytes(), mapping.as_slice())
}

fn main(rt: HostRuntime) -> Result<()> {
    judge_tables(&rt, &AllCalls)
}
