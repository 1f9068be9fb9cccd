ghost use Rattle.std.specs.Prelude.{◌≡◌, IfOk};
ghost use Rattle.replies.specs.Outside.{streams_of};
ghost use Rattle.sbe_cli.specs.Outside.{desk_of};
ghost use Rattle.schema_files.specs.Files.{JobCause, NamesLastBy};
ghost use Rattle.command_words.specs.Words.{HasLimits};
ghost use Rattle.selftest_command.specs.Selftest.{IsBoundedTrial};
ghost use Rattle.tofix_command.specs.Bridges.{words_in};
ghost use Rattle.command_steps.specs.Replies.{counted_by};
ghost use Rattle.command_steps.specs.Stands.{CanCount};
ghost use Rattle.command_steps.specs.Steps.{Steps, Answers, passage, running};
ghost use Rattle.sbe_cli.specs.Jobs.{LoadsJob, answering_of, loads_of, made_so, tofix_words, trial_of};
ghost use Rattle.sbe_cli.specs.Opens.{Opens, opened_for};
ghost use Rattle.sbe_cli.specs.Pumps.{ahead_of, job_of, IsSoundWork, StandsSo, EndsAs, IsOpened};

use crate::unopened::{Unopened, tell};
use build_command::{Builder, load_build};
use check_command::{Checker, load_check};
use command_steps::{FrameWork, Kept, LineWork, Step, Tally, WholeWork, count};
use command_words::{Command, Form};
use compat_command::{Comparer, load_compat};
use coverage_command::{CoverageChecker, load_coverage};
use dump_command::{Dumper, load_dump};
use fixcheck_command::{FixChecker, load_fixcheck};
use raw_steps::RawWork;
use rawframe_command::load_rawframe;
use regrade_command::{Regrader, load_regrade};
use sbe_base::{Files, Sink, Source, Status};
use schema_files::JobStop;
use selftest_command::{Tester, Trial, load_selftest};
use std::alloc::Global;
use std::marker::Model;
use tofix_command::{ToFixWords, Translator, load_tofix};
use tosbe_command::{BackTranslator, load_tosbe};

/// A command at work.
#[derive(Drop)]
pub enum Work {
    Check(WholeWork<Checker>),
    Coverage(WholeWork<CoverageChecker>),
    Compat(WholeWork<Comparer>),
    Dump(FrameWork<Dumper>),
    Build(LineWork<Builder>),
    FixCheck(FrameWork<FixChecker>),
    ToFix(FrameWork<Translator>),
    ToSbe(FrameWork<BackTranslator>),
    SelfTest(WholeWork<Tester>),
    Regrade(FrameWork<Regrader>),
    RawFrame(RawWork),
}

/// One command on its way through its input.
#[derive(Drop)]
pub struct Pump {
    work: Work,
    kept: Kept,
    ended: Option<Status>,
}

impl Model for Pump {
    ghost use Rattle.sbe_cli.specs.Opens.{PumpState};
    ghost use Rattle.sbe_cli.specs.Pumps.{IsPump, ahead_of, job_of};
    ghost use Rattle.std.specs.Coded.{codes};
    ghost use Rattle.sbe_types.specs.contracts.kind.Kind as kind;
    ghost use Rattle.sbe_types.specs.contracts.schema.Level as level;

    ghost Value = { PumpState };

    ghost coded = { Prim.hlevel (codes, kind.the_row.coded, level.the_row.coded) };

    ghost view = { λ pump. record { job = job_of pump.work; at = record { kept = pump.kept; ahead = ahead_of pump.work; ended = pump.ended } } };

    ghost invariant = { λ pump. IsPump pump.work pump.kept pump.ended };
}

impl Pump {
    /// Loads and checks the files of a command, and allocates all buffers.
    ///
    /// # Errors
    ///
    /// The status with which the command ends: a file is absent or refused, loading files or writing notes failed, or
    /// it ran out of memory. Its line is noted.
    pub fn open<F: Files, N: Sink>(
        alloc: Global,
        command: Command,
        files: &mut F,
        notes: &mut N,
    ) -> Result<Pump, Status>
        requires { HasLimits command }
        ensures { Opens command
            (desk_of (F.state files.old) (F.load_count files.old) (N.state notes.old))
            (desk_of (F.state files.new) (F.load_count files.new) (N.state notes.new))
            result }
    {
        match Work::open(alloc, &command, files) {
            Ok(work) => Ok(begin(work)),
            Err(JobStop::Refused(file)) => Err(tell(&Unopened::Refused(file), notes)),
            Err(JobStop::Fault(role)) => Err(tell(&Unopened::FileFault(role), notes)),
            Err(JobStop::NoMemory) => Err(Status::NoMemory),
        }
    }

    /// Answers the next item of the input, or ends. The answer to an item is written before a byte after it is asked
    /// for; lines and items are read ahead within their buffer. A pump that has ended gives the same answer again, and reads and
    /// writes nothing.
    pub fn step<I: Source, O: Sink, N: Sink>(
        &mut self,
        input: &mut I,
        output: &mut O,
        notes: &mut N,
    ) -> Step
        ensures steps { Steps (answering_of self.old.job) self.old.at self.new.at
            (passage (streams_of (I.state input.old) (O.state output.old) (N.state notes.old))
            (streams_of (I.state input.new) (O.state output.new) (N.state notes.new)))
            result }
        ensures job { self.new.job ≡ self.old.job }
    {
        if let Some(status) = self.ended {
            return Step::Ended(status);
        }
        match self.work.answer_next(&self.kept, input, output, notes) {
            Ok(tally) => {
                count(&mut self.kept, tally);
                Step::Went
            }
            Err(status) => end(&mut self.ended, status),
        }
    }
}

impl Work {
    /// The work of a command, whose files are loaded and checked. Nothing has been done yet.
    fn open<F: Files>(alloc: Global, command: &Command, files: &mut F) -> Result<Work, JobStop>
        requires { HasLimits command.now }
        ensures kept { (F.state files.new).told ≡ (F.state files.old).told }
        ensures loads { LoadsJob (F.state files.old).told command.now (made_so job_of result) }
        ensures cause { JobCause (F.state files.old).faults (F.state files.new).faults result }
        ensures names { NamesLastBy (loads_of command.now) (F.load_count files.old) (F.load_count files.new) result }
        ensures opened { IfOk result (λ work. IsOpened work) }
    {
        match command.form {
            Form::Check => match load_check(alloc, command.file(0), files) {
                Ok(checker) => Ok(Work::Check(WholeWork::open(alloc, checker))),
                Err(stop) => Err(stop),
            },
            Form::Coverage => match load_coverage(alloc, command.file(0), command.file(1), files) {
                Ok(checker) => Ok(Work::Coverage(WholeWork::open(alloc, checker))),
                Err(stop) => Err(stop),
            },
            Form::Compat => match load_compat(alloc, command.file(0), command.file(1), files) {
                Ok(comparer) => Ok(Work::Compat(WholeWork::open(alloc, comparer))),
                Err(stop) => Err(stop),
            },
            Form::Dump => match load_dump(alloc, command.file(0), &command.also, files) {
                Ok(dumper) => match FrameWork::open(alloc, dumper, command.limits) {
                    Ok(work) => Ok(Work::Dump(work)),
                    Err(_) => Err(JobStop::NoMemory),
                },
                Err(stop) => Err(stop),
            },
            Form::Build => match load_build(alloc, command.file(0), command.limits, files) {
                Ok(builder) => match LineWork::open(alloc, builder, command.limits) {
                    Ok(work) => Ok(Work::Build(work)),
                    Err(_) => Err(JobStop::NoMemory),
                },
                Err(stop) => Err(stop),
            },
            Form::FixCheck => match load_fixcheck(alloc, command.file(0), files) {
                Ok(checker) => match FrameWork::open(alloc, checker, command.limits) {
                    Ok(work) => Ok(Work::FixCheck(work)),
                    Err(_) => Err(JobStop::NoMemory),
                },
                Err(stop) => Err(stop),
            },
            Form::ToFix => match load_tofix(alloc, &tofix_words(command), files) {
                Ok(translator) => match FrameWork::open(alloc, translator, command.limits) {
                    Ok(work) => Ok(Work::ToFix(work)),
                    Err(_) => Err(JobStop::NoMemory),
                },
                Err(stop) => Err(stop),
            },
            Form::RawFrame => match load_rawframe(alloc, command.file(0), files) {
                Ok(framer) => match RawWork::open(alloc, framer, command.limits) {
                    Ok(work) => Ok(Work::RawFrame(work)),
                    Err(_) => Err(JobStop::NoMemory),
                },
                Err(stop) => Err(stop),
            },
            Form::SelfTest => {
                let trial = trial_of(command);
                match load_selftest(alloc, command.file(0), trial, files) {
                    Ok(tester) => Ok(Work::SelfTest(WholeWork::open(alloc, tester))),
                    Err(stop) => Err(stop),
                }
            }
            Form::Regrade => {
                let (from, to) = (command.file(0), command.file(1));
                match load_regrade(alloc, from, to, command.limits, files) {
                    Ok(regrader) => match FrameWork::open(alloc, regrader, command.limits) {
                        Ok(work) => Ok(Work::Regrade(work)),
                        Err(_) => Err(JobStop::NoMemory),
                    },
                    Err(stop) => Err(stop),
                }
            }
            Form::ToSbe => {
                let limits = command.limits;
                match load_tosbe(alloc, command.file(0), command.file(1), limits, files) {
                    Ok(translator) => match FrameWork::open(alloc, translator, limits) {
                        Ok(work) => Ok(Work::ToSbe(work)),
                        Err(_) => Err(JobStop::NoMemory),
                    },
                    Err(stop) => Err(stop),
                }
            }
        }
    }

    /// Answers the next item, or returns the status of the run that ends here.
    #[inline(always)]
    fn answer_next<I: Source, O: Sink, N: Sink>(
        &mut self,
        kept: &Kept,
        input: &mut I,
        output: &mut O,
        notes: &mut N,
    ) -> Result<Tally, Status>
        requires sound { IsSoundWork self.old }
        requires stands { StandsSo self.old kept.now }
        ensures answers { Answers (answering_of (job_of self.old)) (running kept.now (ahead_of self.old)) (ahead_of self.new)
            (streams_of (I.state input.old) (O.state output.old) (N.state notes.old))
            (streams_of (I.state input.new) (O.state output.new) (N.state notes.new))
            result }
        ensures job { job_of self.new ≡ job_of self.old }
        ensures sound { IsSoundWork self.new }
        ensures stands { IfOk result (λ tally. StandsSo self.new (counted_by kept.now tally.bytes tally.verdict)) }
        ensures countable { IfOk result (λ tally. CanCount kept.now tally) }
    {
        match self {
            Work::Check(work) => work.answer_next(kept, input, output, notes),
            Work::Coverage(work) => work.answer_next(kept, input, output, notes),
            Work::Compat(work) => work.answer_next(kept, input, output, notes),
            Work::Dump(work) => work.answer_next(kept, input, output, notes),
            Work::Build(work) => work.answer_next(kept, input, output, notes),
            Work::FixCheck(work) => work.answer_next(kept, input, output, notes),
            Work::ToFix(work) => work.answer_next(kept, input, output, notes),
            Work::ToSbe(work) => work.answer_next(kept, input, output, notes),
            Work::SelfTest(work) => work.answer_next(kept, input, output, notes),
            Work::Regrade(work) => work.answer_next(kept, input, output, notes),
            Work::RawFrame(work) => work.answer_next(kept, input, output, notes),
        }
    }
}

/// What the arguments give to the translation of messages.
fn tofix_words(command: &Command) -> ToFixWords<'_>
    ensures words { words_in result ≡ tofix_words command.now }
    ensures head { result.head.now ≡ command.now.head }
    ensures frame { result.frame ≡ command.now.limits.frame }
{
    ToFixWords {
        schema: command.file(0),
        map: command.file(1),
        also: &command.also,
        head: &command.head,
        frame: command.limits.frame,
    }
}

/// The messages that a command draws, and the most bytes of their frames.
fn trial_of(command: &Command) -> Trial
    requires { HasLimits command.now }
    ensures trial { result ≡ trial_of command.now }
    ensures bounded { IsBoundedTrial result }
{
    Trial {
        seed: command.draws.seed,
        count: command.draws.count,
        frame: command.limits.frame,
    }
}

/// A pump that has done nothing yet.
fn begin(work: Work) -> Pump
    requires { IsOpened work }
    ensures { result ≡ opened_for (job_of work) }
{
    Pump {
        work,
        kept: Kept {
            items: 0,
            refused: 0,
            translated: 0,
            dropped: 0,
            filled: 0,
            bytes: 0,
        },
        ended: None,
    }
}

/// Ends a pump.
fn end(ended: &mut Option<Status>, status: Status) -> Step
    ensures { EndsAs result ended.new status }
{
    *ended = Some(status);
    Step::Ended(status)
}
