use crate::difference::{Difference, differences};
use crate::folder::Folder;
use crate::refusal::RowErr;
use crate::row::Row;
use crate::trial::{Given, Wanted, run_once};
use sbe_base::Files;
use serde_json::Value;
use std::alloc::{AllocError, Global};
use std::collections::BTreeSet;
use std::fmt::Write;

/// The lines of a table's rows, and whether all are the same.
#[derive(Drop)]
pub struct Report {
    lines: String,
    same: bool,
}

impl Report {
    /// Creates it without lines.
    fn new(alloc: Global) -> Report {
        Report {
            lines: String::new(alloc),
            same: true,
        }
    }

    /// The lines.
    pub fn text(&self) -> &str {
        self.lines.as_str()
    }

    /// Whether each row could be read and didn't differ.
    pub fn is_same(&self) -> bool {
        self.same
    }
}

/// The result of a row.
#[derive(Drop)]
struct Verdict {
    name: String,
    /// What differs; empty if the row is the same.
    differs: String,
}

/// Runs the rows of a table.
pub fn run_table<F: Files + Drop>(
    alloc: Global,
    folder: &mut Folder<F>,
    table: &str,
) -> Result<Report, AllocError> {
    let mut report = Report::new(alloc);
    let mut names = BTreeSet::new(alloc);
    let text = match table_text(alloc, folder, table) {
        Ok(text) => text,
        Err(e) => {
            report.same = false;
            writeln!(report.lines, "{table}: unreadable: {e}")?;
            return Ok(report);
        }
    };
    for (i, line) in text.as_str().lines().enumerate() {
        if line.is_empty() || line.starts_with('#') {
            continue;
        }
        let number = i.saturating_add(1);
        let verdict = judge_line(alloc, folder, &mut names, line);
        put_verdict(table, number, verdict, &mut report)?;
    }
    Ok(report)
}

/// The text of a table.
fn table_text<F: Files + Drop>(
    alloc: Global,
    folder: &mut Folder<F>,
    table: &str,
) -> Result<String, RowErr> {
    match String::from_utf8(folder.load(table)?) {
        Ok(text) => Ok(text),
        Err(_) => Err(RowErr::NotText(String::from_str(alloc, table)?)),
    }
}

/// Appends the line of a row.
fn put_verdict(
    table: &str,
    number: usize,
    verdict: Result<Verdict, RowErr>,
    report: &mut Report,
) -> Result<(), AllocError> {
    match verdict {
        Ok(verdict) if verdict.differs.is_empty() => {
            writeln!(report.lines, "{table} {} same", verdict.name)
        }
        Ok(verdict) => {
            report.same = false;
            writeln!(
                report.lines,
                "{table} {} differs: {}",
                verdict.name, verdict.differs
            )
        }
        Err(e) => {
            report.same = false;
            writeln!(report.lines, "{table}:{number} unreadable: {e}")
        }
    }
}

/// Reads the row of a line, whose name must be new, and runs it.
fn judge_line<F: Files + Drop>(
    alloc: Global,
    folder: &mut Folder<F>,
    names: &mut BTreeSet<String>,
    line: &str,
) -> Result<Verdict, RowErr> {
    let value = match Value::from_str(alloc, line) {
        Ok(value) => value,
        Err(e) => return Err(RowErr::NotJson(e)),
    };
    let row = Row::read(alloc, &value)?;
    if names.contains(row.name.as_str()) {
        return Err(RowErr::NameTwice(row.name.clone()?));
    }
    names.insert(row.name.clone()?)?;
    let differs = run_row(alloc, folder, &row)?;
    Ok(Verdict {
        name: row.name.clone()?,
        differs,
    })
}

/// Runs a row with each size of its pieces until one differs, and returns the difference.
fn run_row<F: Files + Drop>(
    alloc: Global,
    folder: &mut Folder<F>,
    row: &Row,
) -> Result<String, RowErr> {
    let given = Given::of(alloc, folder, row)?;
    let wanted = Wanted::of(alloc, folder, row)?;
    for piece in row.pieces.least..=row.pieces.most {
        let outcome = run_once(alloc, row, &given, piece)?;
        let found = differences(alloc, &wanted, &outcome)?;
        if !found.is_empty() {
            return Ok(text_of_all(alloc, piece, found.as_slice())?);
        }
    }
    Ok(String::new(alloc))
}

/// The text of what differs.
fn text_of_all(alloc: Global, piece: usize, found: &[Difference]) -> Result<String, AllocError> {
    let mut text = format!(in alloc; "read by {piece}")?;
    for difference in found {
        write!(text, "; {difference}")?;
    }
    Ok(text)
}
