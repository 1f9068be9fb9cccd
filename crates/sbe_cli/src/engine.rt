ghost use Rattle.std.specs.Prelude.{◌≡◌, map, string_bytes};
ghost use Rattle.replies.specs.Outside.{streams_of};
ghost use Rattle.sbe_cli.specs.Outside.{outside_of};
ghost use Rattle.command_words.specs.Words.{HasLimits};
ghost use Rattle.sbe_cli.specs.Runs.{Runs, CarriesOut};
ghost use Rattle.command_steps.specs.Steps.{Drains};
ghost use Rattle.sbe_cli.specs.Jobs.{answering_of};
ghost use Rattle.sbe_cli.specs.Opens.{opened_for};

use crate::pump::Pump;
use crate::unopened::{Unopened, tell};
use command_steps::Step;
use command_words::{Command, WordsErr, read_words};
use sbe_base::{Files, Sink, Source, Status};
use std::alloc::Global;

/// Runs the command that the arguments give.
pub fn run<F: Files, I: Source, O: Sink, N: Sink>(
    alloc: Global,
    words: &[String],
    files: &mut F,
    input: &mut I,
    output: &mut O,
    notes: &mut N,
) -> Status
    ensures { Runs (map (λ word. string_bytes word) words.now)
        (outside_of (F.state files.old) (F.load_count files.old)
        (streams_of (I.state input.old) (O.state output.old) (N.state notes.old)))
        (outside_of (F.state files.new) (F.load_count files.new)
        (streams_of (I.state input.new) (O.state output.new) (N.state notes.new)))
        result }
{
    match read_words(alloc, words) {
        Ok(command) => carry_out(alloc, command, files, input, output, notes),
        Err(WordsErr::Usage) => tell(&Unopened::Usage, notes),
        Err(WordsErr::Memory) => Status::NoMemory,
    }
}

/// Opens the command's pump, and runs it to its end.
fn carry_out<F: Files, I: Source, O: Sink, N: Sink>(
    alloc: Global,
    command: Command,
    files: &mut F,
    input: &mut I,
    output: &mut O,
    notes: &mut N,
) -> Status
    requires { HasLimits command }
    ensures { CarriesOut command
        (outside_of (F.state files.old) (F.load_count files.old)
        (streams_of (I.state input.old) (O.state output.old) (N.state notes.old)))
        (outside_of (F.state files.new) (F.load_count files.new)
        (streams_of (I.state input.new) (O.state output.new) (N.state notes.new)))
        result }
{
    match Pump::open(alloc, command, files, notes) {
        Ok(mut pump) => {
            let status = drain(&mut pump, input, output, notes);
            // It is dropped by a call, since the check of a function that drops all of it itself doesn't end.
            drop(pump);
            status
        }
        Err(status) => status,
    }
}

/// Runs a pump until it has ended.
fn drain<I: Source, O: Sink, N: Sink>(
    pump: &mut Pump,
    input: &mut I,
    output: &mut O,
    notes: &mut N,
) -> Status
    requires { pump.old ≡ opened_for pump.old.job }
    ensures { Drains (answering_of pump.old.job)
        (streams_of (I.state input.old) (O.state output.old) (N.state notes.old))
        (streams_of (I.state input.new) (O.state output.new) (N.state notes.new))
        result }
{
    'steps: loop {
        match pump.step(input, output, notes) {
            Step::Went => {}
            Step::Ended(status) => return status,
        }
    }
}
