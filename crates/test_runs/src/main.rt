//! Runs the tables of its data: each row is a run of `sbe` in memory, and what it must write.
//!
//! Its standard input names the tables, one file of its folder per line. It prints a line for each row of each table,
//! and exits with 1 if any row differs or can't be read.
#![tactic(auto)]

mod content;
mod difference;
mod folder;
mod member;
mod refusal;
mod row;
mod table;
mod trial;

use folder::Folder;
use sbe_base::DirFiles;
use std::io;
use std::process::ExitCode;
use table::{Report, run_table};

fn main(rt: HostRuntime) -> ExitCode {
    match run_tables(&rt) {
        Ok(true) => ExitCode::SUCCESS,
        _ => ExitCode::FAILURE,
    }
}

/// Runs the tables that the standard input names, and returns whether all their rows are the same.
fn run_tables(rt: &HostRuntime) -> io::Result<bool> {
    let alloc = rt.alloc();
    let names = io::read_to_string(alloc, rt.stdin())?;
    let mut folder = Folder::new(alloc, DirFiles::new(*rt));
    let mut all_same = true;
    for name in names.lines() {
        let report = run_table(alloc, &mut folder, name)?;
        all_same &= print_report(rt, &report)?;
    }
    Ok(all_same)
}

/// Prints the lines of a report, and returns whether all rows are the same.
fn print_report(rt: &HostRuntime, report: &Report) -> io::Result<bool> {
    rt.print(report.text())?;
    Ok(report.is_same())
}
