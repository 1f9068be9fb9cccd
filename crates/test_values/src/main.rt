//! Rows of single values: their texts in tag-value messages, their bytes, their JSON texts, and heads of frames.
#![tactic(auto)]

mod dates;
mod heads;
mod leaves;
mod marks;
mod rules;
mod texts;
mod widths;

use anyhow::{Result, bail};
use test_tables::{Calls, Row, judge_tables};

/// The calls of all tables.
struct AllCalls;

impl Calls for AllCalls {
    fn answer(&self, rt: &HostRuntime, row: &Row) -> Result<String> {
        let alloc = rt.alloc();
        if let Some(answer) = dates::answer(alloc, row)? {
            return Ok(answer);
        }
        if let Some(answer) = rules::answer(alloc, row)? {
            return Ok(answer);
        }
        if let Some(answer) = texts::answer(alloc, row)? {
            return Ok(answer);
        }
        if let Some(answer) = widths::answer(alloc, row)? {
            return Ok(answer);
        }
        match heads::answer(alloc, row)? {
            Some(answer) => Ok(answer),
            None => bail!("there is no such call"),
        }
    }
}

fn main(rt: HostRuntime) -> Result<()> {
    judge_tables(&rt, &AllCalls)
}
