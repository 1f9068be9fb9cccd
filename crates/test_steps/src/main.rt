//! Rows for the parts of `run` that no run shows: arguments that become commands, the steps of a pump, and the elements
//! of files.
#![tactic(auto)]

mod attributes;
mod elements;
mod refused;
mod steps;
mod words;

use anyhow::{Result, bail};
use test_tables::{Calls, Row, judge_tables};

/// The calls of all tables.
struct AllCalls;

impl Calls for AllCalls {
    fn answer(&self, rt: &HostRuntime, row: &Row) -> Result<String> {
        let alloc = rt.alloc();
        if let Some(answer) = elements::answer(alloc, row)? {
            return Ok(answer);
        }
        if let Some(answer) = attributes::answer(alloc, row)? {
            return Ok(answer);
        }
        match row.call() {
            "read_words" => words::command_answer(alloc, row),
            "forms" => words::forms_answer(alloc),
            "step" => steps::steps_answer(rt, row),
            _ => bail!("there is no such call"),
        }
    }
}

fn main(rt: HostRuntime) -> Result<()> {
    judge_tables(&rt, &AllCalls)
}
