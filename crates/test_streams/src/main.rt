//! Rows of streams: frames, lines and tag-value texts that are taken from a source piece by piece.
#![tactic(auto)]

mod frames;
mod lines;
mod raw;
mod sources;

use anyhow::{Result, bail};
use test_tables::{Calls, Row, judge_tables};

/// The calls of all tables.
struct AllCalls;

impl Calls for AllCalls {
    fn answer(&self, rt: &HostRuntime, row: &Row) -> Result<String> {
        match row.call() {
            "frames" => frames::in_pieces(rt.alloc(), row),
            "retried" => frames::retried(rt.alloc(), row),
            "ahead" => frames::read_ahead(rt.alloc(), row),
            "lines" => lines::in_pieces(rt.alloc(), row),
            "raw" => raw::in_pieces(rt.alloc(), row),
            "raw retried" => raw::retried(rt.alloc(), row),
            _ => bail!("there is no such call"),
        }
    }
}

fn main(rt: HostRuntime) -> Result<()> {
    judge_tables(&rt, &AllCalls)
}
