//! Rows of the outside: sources, sinks and files in memory and over std, and the writer with several users. Also lists.
#![tactic(auto)]

mod fakes;
mod files;
mod kept;
mod shared;
mod sinks;
mod sources;

use anyhow::{Result, bail};
use test_tables::{Calls, Row, judge_tables};

/// The calls of all tables.
struct AllCalls;

impl Calls for AllCalls {
    fn answer(&self, rt: &HostRuntime, row: &Row) -> Result<String> {
        let alloc = rt.alloc();
        match row.call() {
            "list" => kept::list_answer(alloc, row),
            "codes" => kept::codes_answer(alloc),
            "mem_source" => sources::mem_answer(alloc, row),
            "std_source" => sources::std_answer(alloc, row),
            "buffered_source" => sources::buffered_answer(alloc, row),
            "mem_sink" => sinks::mem_answer(alloc, row),
            "std_sink" => sinks::std_answer(alloc, row),
            "retried" => sinks::retried_answer(alloc, row),
            "shared" => shared::shared_answer(alloc, row),
            "mem_files" => files::mem_answer(alloc, row),
            "dir_files" => files::dir_answer(rt, row),
            _ => bail!("there is no such call"),
        }
    }
}

fn main(rt: HostRuntime) -> Result<()> {
    judge_tables(&rt, &AllCalls)
}
