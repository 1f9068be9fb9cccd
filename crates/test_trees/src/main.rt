//! Rows of messages: trees that are written, read, counted and projected, and the states of a writer.
#![tactic(auto)]

mod bench;
mod examples;
mod fields;
mod places;
mod projected;
mod starts;
mod states;
mod trees;
mod views;
mod written;

use anyhow::{Result, bail};
use bench::checked_of;
use schema_check::Checked;
use test_tables::{Calls, Row, judge_tables};

/// The calls of all tables.
struct AllCalls;

impl Calls for AllCalls {
    fn answer(&self, rt: &HostRuntime, row: &Row) -> Result<String> {
        let checked = checked_of(rt, row.text(0)?)?;
        told_of(rt, &checked, row)
    }
}

/// The answer to a row about the schema that it names first.
fn told_of(rt: &HostRuntime, checked: &Checked, row: &Row) -> Result<String> {
    let alloc = rt.alloc();
    match row.call() {
        "encode" => written::line_answer(alloc, checked, row),
        "encode_changed" => written::changed_answer(rt, checked, row),
        "encode_again" => written::again_answer(alloc, checked, row),
        "encode_in_turn" => written::turns_answer(alloc, checked, row),
        "encode_tree" => trees::tree_answer(alloc, checked, row),
        "body_size" => trees::size_answer(alloc, checked, row),
        "decode" => trees::decoded_answer(alloc, checked, row),
        "same" => trees::same_answer(alloc, row),
        "view" => views::view_answer(alloc, checked, row),
        "printed" => views::printed_answer(alloc, checked, row),
        "kept" => places::kept_answer(alloc, checked, row),
        "project" => projected::project_answer(rt, checked, row),
        "body_of_line" => examples::body_answer(alloc, checked, row),
        "write_order" => examples::order_text(alloc, checked, row),
        "sum_entries" => examples::sum_answer(alloc, checked, row),
        "named" => examples::named_answer(alloc, checked, row),
        "last_price" => examples::price_answer(alloc, checked, row),
        "put_data" => places::put_answer(alloc, checked, row),
        "skip_level" => places::skip_answer(alloc, checked, row),
        "set" => fields::set_answer(alloc, checked, row),
        "start" => starts::start_answer(alloc, checked, row),
        "states" => starts::states_answer(alloc, checked, row),
        _ => bail!("there is no such call"),
    }
}

fn main(rt: HostRuntime) -> Result<()> {
    judge_tables(&rt, &AllCalls)
}
