//! The steps of a pump.

ghost use Rattle.command_words.specs.Words.{HasLimits};

use crate::words::words_of;
use anyhow::{Result, bail};
use sbe_base::{MemFiles, MemSink, MemSource};
use sbe_cli::{Command, Pump, Step, read_words};
use std::alloc::Global;
use std::fs;
use test_tables::{Row, spelled};

/// How many bytes the input gives per read.
const PIECE: usize = 64;

/// How many bytes the output and the notes accept.
const ROOM: usize = 1024;

fn files_of(rt: &HostRuntime) -> Result<MemFiles> {
    let text = fs::read(rt, "ping.json")?;
    let mut files = MemFiles::new(rt.alloc(), &[])?;
    files.put("ping.json", text.as_slice())?;
    Ok(files)
}

/// The pump of a command over the file `ping.json`.
fn opened(rt: &HostRuntime, command: Command) -> Result<Pump>
    requires { HasLimits command }
{
    let mut notes = MemSink::new(rt.alloc(), ROOM, &[])?;
    let mut files = files_of(rt)?;
    match Pump::open(rt.alloc(), command, &mut files, &mut notes) {
        Ok(pump) => Ok(pump),
        Err(_) => bail!("there is no pump"),
    }
}

/// The pump of the arguments that a row gives.
fn pump_of(rt: &HostRuntime, row: &Row) -> Result<Pump> {
    let words = words_of(rt.alloc(), row, 3)?;
    match read_words(rt.alloc(), words.as_slice()) {
        Ok(command) => opened(rt, command),
        Err(_) => bail!("the words are no command"),
    }
}

/// One step: what it did, how many bytes the input then has left, and how many were written and noted.
fn step_text(
    alloc: Global,
    pump: &mut Pump,
    input: &mut MemSource,
    output: &mut MemSink,
    notes: &mut MemSink,
) -> Result<String> {
    let step = match pump.step(input, output, notes) {
        Step::Went => format!(in alloc; "went")?,
        Step::Ended(status) => format!(in alloc; "ended {status:?}")?,
    };
    let left = input.left().len();
    let written = output.bytes().len();
    let noted = spelled(alloc, notes.bytes())?;
    Ok(format!(in alloc;
        "{}, left {left}, written {written}, noted {}; ",
        step.as_str(),
        noted.as_str()
    )?)
}

fn all_steps(
    alloc: Global,
    pump: &mut Pump,
    input: &mut MemSource,
    output: &mut MemSink,
    notes: &mut MemSink,
    many: usize,
) -> Result<String> {
    let mut text = String::new(alloc);
    for _ in 0..many {
        text.push_str(step_text(alloc, pump, input, output, notes)?.as_str())?;
    }
    Ok(text)
}

/// The steps over an output and notes that accept everything.
fn steps_over(
    alloc: Global,
    pump: &mut Pump,
    input: &mut MemSource,
    many: usize,
) -> Result<String> {
    let mut output = MemSink::new(alloc, ROOM, &[])?;
    let mut notes = MemSink::new(alloc, ROOM, &[])?;
    all_steps(alloc, pump, input, &mut output, &mut notes, many)
}

/// A row: an input, the number of the read that fails, or 0, how many steps, and the arguments.
pub fn steps_answer(rt: &HostRuntime, row: &Row) -> Result<String> {
    let alloc = rt.alloc();
    let many = row.size(2)?;
    let failing = row.text(1)?.parse::<u64>()?;
    let bytes = row.bytes(alloc, 0)?;
    let mut input = MemSource::new(alloc, bytes.as_slice(), PIECE, &[failing])?;
    let mut pump = pump_of(rt, row)?;
    let told = steps_over(alloc, &mut pump, &mut input, many);
    // It is dropped by a call, since the check of a function that drops all of it itself doesn't end.
    drop(pump);
    told
}
