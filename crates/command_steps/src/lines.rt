ghost use Rattle.std.specs.Prelude.{◌≡◌, IfOk, length};
ghost use Rattle.frame_stream.specs.LineTakes.{line_bytes, lines_opened};
ghost use Rattle.replies.specs.Outside.{sinks_of, streams_of};
ghost use Rattle.command_steps.specs.Replies.{by_lines, counted_by, Replied};
ghost use Rattle.command_steps.specs.Stands.{IsBounded, StandsLines, HasTaken, CanCount, lines_ahead};
ghost use Rattle.command_steps.specs.Steps.{running, Answers};

use crate::command::LineCommand;
use crate::end::{Stop, tell};
use crate::kept::Kept;
use crate::step::Tally;
use frame_stream::{LineErr, LineStream, LineTaken};
use lists::NoMem;
use replies::Verdict;
use sbe_base::{Limits, Sink, Source, Status};
use std::alloc::Global;

/// A command, and the lines that are still to come.
#[derive(Drop)]
pub struct LineWork<C> {
    pub command: C,
    pub limits: Limits,
    pub stream: LineStream,
}

impl<C: LineCommand> LineWork<C> {
    /// Work that has taken no line yet.
    pub fn open(alloc: Global, command: C, limits: Limits) -> Result<LineWork<C>, NoMem>
        requires { IsBounded limits }
        ensures command { IfOk result (λ work. work.command ≡ command) }
        ensures limits { IfOk result (λ work. work.limits ≡ limits) }
        ensures stream { IfOk result (λ work. work.stream ≡ lines_opened limits.input) }
    {
        let stream = LineStream::open(alloc, limits)?;
        Ok(LineWork {
            command,
            limits,
            stream,
        })
    }

    /// Takes the next line and writes its answer; or notes what ends the lines, and returns the status of the run.
    #[inline(always)]
    pub fn answer_next<I: Source, O: Sink, N: Sink>(
        &mut self,
        kept: &Kept,
        input: &mut I,
        output: &mut O,
        notes: &mut N,
    ) -> Result<Tally, Status>
        requires bounded { IsBounded self.old.limits }
        requires stands { StandsLines self.old.limits self.old.stream kept.now }
        ensures answers { Answers (by_lines self.old.limits.input C.last (C.is_reply self.old.command))
            (running kept.now (lines_ahead self.old.stream)) (lines_ahead self.new.stream)
            (streams_of (I.state input.old) (O.state output.old) (N.state notes.old))
            (streams_of (I.state input.new) (O.state output.new) (N.state notes.new))
            result }
        ensures command { self.new.command ≡ self.old.command }
        ensures limits { self.new.limits ≡ self.old.limits }
        ensures stands { IfOk result (λ tally. StandsLines self.old.limits self.new.stream (counted_by kept.now tally.bytes tally.verdict)) }
        ensures countable { IfOk result (λ tally. CanCount kept.now tally) }
    {
        match self.stream.take(input) {
            Ok(LineTaken::Line) => {
                match answer(&mut self.command, &self.stream, kept, output, notes) {
                    Ok(verdict) => Ok(Tally {
                        bytes: self.bytes_taken(kept),
                        verdict,
                    }),
                    Err(status) => Err(status),
                }
            }
            Ok(LineTaken::End) => Err(self.command.end(kept, notes)),
            Err(LineErr::LineOver) => Err(tell(&Stop::LineOver(kept.bytes), notes)),
            Err(LineErr::InputLimit) => Err(tell(&Stop::InputLimit(self.limits.input), notes)),
            Err(LineErr::ReadFault) => Err(tell(&Stop::ReadFault(self.stream.taken()), notes)),
        }
    }

    /// How many bytes of the input the line that was taken has: those of its end too, which the last line may lack.
    fn bytes_taken(&self, kept: &Kept) -> u64
        requires { HasTaken self.now.limits self.now.stream kept.now }
        ensures { result ≡ line_bytes self.now.stream }
    {
        let whole = self.stream.line().len() as u64 + 1;
        whole.min(self.stream.taken() - kept.bytes)
    }
}

/// Writes the answer to the line that was taken.
fn answer<C: LineCommand, O: Sink, N: Sink>(
    command: &mut C,
    stream: &LineStream,
    kept: &Kept,
    output: &mut O,
    notes: &mut N,
) -> Result<Verdict, Status>
    ensures same { command.new ≡ command.old }
    ensures replied { Replied (length stream.now.line) (C.is_reply command.old kept.now stream.now.line)
        (sinks_of (O.state output.old) (N.state notes.old))
        (sinks_of (O.state output.new) (N.state notes.new))
        result }
{
    command.answer(kept, stream.line(), output, notes)
}
