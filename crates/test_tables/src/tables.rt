//! Runs tables row by row.

use crate::row::Row;
use anyhow::Result;
use std::fs;

/// The calls that rows name.
pub trait Calls {
    /// The answer to a row's call. Fails if the row names no call, or gives it something unsuitable.
    fn answer(&self, rt: &HostRuntime, row: &Row) -> Result<String>;
}

/// Runs the tables that the standard input names, one per line, and prints a line for each row: its name and `same`, or
/// the required answer and the actual one. An empty line of a table, and one that begins with `#`, is a comment.
pub fn judge_tables<C: Calls>(rt: &HostRuntime, calls: &C) -> Result<()> {
    for table in rt.lines(rt.alloc()) {
        judge_table(rt, calls, table?.as_str())?;
    }
    Ok(())
}

fn judge_table<C: Calls>(rt: &HostRuntime, calls: &C, table: &str) -> Result<()> {
    let text = fs::read_to_string(rt, table)?;
    for line in text.as_str().lines() {
        if !line.is_empty() && !line.starts_with('#') {
            judge_line(rt, calls, table, line)?;
        }
    }
    Ok(())
}

fn judge_line<C: Calls>(rt: &HostRuntime, calls: &C, table: &str, line: &str) -> Result<()> {
    match Row::read(rt.alloc(), line) {
        Ok(row) => judge_row(rt, calls, table, &row),
        Err(e) => {
            println!(rt; "{table} unreadable: {e}: {line}")?;
            Ok(())
        }
    }
}

fn judge_row<C: Calls>(rt: &HostRuntime, calls: &C, table: &str, row: &Row) -> Result<()> {
    let name = row.name();
    match calls.answer(rt, row) {
        Ok(answer) => {
            if answer.as_str() == row.wanted() {
                println!(rt; "{table} {name} same")?;
            } else {
                let wanted = row.wanted();
                println!(rt; "{table} {name} differs: wanted {wanted}, told {answer}")?;
            }
        }
        Err(e) => println!(rt; "{table} {name} fails: {e}")?,
    }
    Ok(())
}
