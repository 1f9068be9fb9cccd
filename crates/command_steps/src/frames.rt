ghost use Rattle.std.specs.Prelude.{◌≡◌, IfOk, length};
ghost use Rattle.frame_stream.specs.Stream.{opened as opened_stream};
ghost use Rattle.replies.specs.Outside.{sinks_of, streams_of};
ghost use Rattle.command_steps.specs.Ahead.{none_ahead};
ghost use Rattle.command_steps.specs.Replies.{by_frames, counted_by, Replied, Wants};
ghost use Rattle.command_steps.specs.Stands.{IsBounded, Stands, CanCount};
ghost use Rattle.command_steps.specs.Steps.{running, Answers};

use crate::command::FrameCommand;
use crate::end::{Stop, tell};
use crate::kept::Kept;
use crate::step::Tally;
use frame_stream::{FrameStream, StreamErr, Taken};
use lists::NoMem;
use replies::Verdict;
use sbe_base::{Limits, Sink, Source, Status};
use std::alloc::Global;

/// A command, and the frames that are still to come.
#[derive(Drop)]
pub struct FrameWork<C> {
    pub command: C,
    pub limits: Limits,
    pub stream: FrameStream,
}

impl<C: FrameCommand> FrameWork<C> {
    /// Work that has taken no frame yet.
    pub fn open(alloc: Global, command: C, limits: Limits) -> Result<FrameWork<C>, NoMem>
        requires { IsBounded limits }
        ensures command { IfOk result (λ work. work.command ≡ command) }
        ensures limits { IfOk result (λ work. work.limits ≡ limits) }
        ensures stream { IfOk result (λ work. work.stream ≡ opened_stream limits) }
    {
        let stream = FrameStream::open(alloc, limits)?;
        Ok(FrameWork {
            command,
            limits,
            stream,
        })
    }

    /// Takes the next frame and writes its answer; or notes what ends the frames, and returns the status of the run.
    #[inline(always)]
    pub fn answer_next<I: Source, O: Sink, N: Sink>(
        &mut self,
        kept: &Kept,
        input: &mut I,
        output: &mut O,
        notes: &mut N,
    ) -> Result<Tally, Status>
        requires bounded { IsBounded self.old.limits }
        requires stands { Stands self.old.limits self.old.stream kept.now }
        ensures answers { Answers (by_frames self.old.limits C.spares C.last (C.is_reply self.old.command)) (running kept.now none_ahead) none_ahead
            (streams_of (I.state input.old) (O.state output.old) (N.state notes.old))
            (streams_of (I.state input.new) (O.state output.new) (N.state notes.new))
            result }
        ensures command { self.new.command ≡ self.old.command }
        ensures limits { self.new.limits ≡ self.old.limits }
        ensures stands { IfOk result (λ tally. Stands self.old.limits self.new.stream (counted_by kept.now tally.bytes tally.verdict)) }
        ensures countable { IfOk result (λ tally. CanCount kept.now tally) }
    {
        let taken = self.stream.take(input);
        match &taken {
            Ok(Taken::Frame(head)) => {
                match answer(
                    &mut self.command,
                    &self.stream,
                    kept,
                    head.encoding,
                    output,
                    notes,
                ) {
                    Ok(verdict) => Ok(Tally {
                        bytes: head.length as u64,
                        verdict,
                    }),
                    Err(status) => Err(status),
                }
            }
            Ok(Taken::End) => Err(self.command.end(kept, notes)),
            Ok(Taken::EndInside(held)) => {
                Err(tell(&Stop::EndInside(*held as u64, kept.bytes), notes))
            }
            Err(StreamErr::Head(fault)) => Err(tell(&Stop::Head(*fault, kept.bytes), notes)),
            Err(StreamErr::InputLimit) => Err(tell(&Stop::InputLimit(self.limits.input), notes)),
            Err(StreamErr::ReadFault) => Err(tell(&Stop::ReadFault(self.stream.taken()), notes)),
        }
    }
}

/// Writes the answer to the frame that was taken.
fn answer<C: FrameCommand, O: Sink, N: Sink>(
    command: &mut C,
    stream: &FrameStream,
    kept: &Kept,
    encoding: u16,
    output: &mut O,
    notes: &mut N,
) -> Result<Verdict, Status>
    ensures same { command.new ≡ command.old }
    ensures replied { Replied (length stream.now.body) (C.is_reply command.old kept.now (record { encoding = encoding; body = stream.now.body }))
        (sinks_of (O.state output.old) (N.state notes.old))
        (sinks_of (O.state output.new) (N.state notes.new))
        result }
    ensures wants { Wants C.spares result }
{
    command.answer(kept, encoding, stream.frame(), output, notes)
}
