ghost use Rattle.std.specs.Prelude.{◌≡◌, IfOk};
ghost use Rattle.raw_fix.specs.Items.{raw_opened};
ghost use Rattle.replies.specs.Outside.{streams_of};
ghost use Rattle.command_steps.specs.Replies.{counted_by};
ghost use Rattle.command_steps.specs.Stands.{IsBounded, CanCount};
ghost use Rattle.command_steps.specs.Steps.{running, Answers};
ghost use Rattle.raw_steps.specs.RawReplies.{by_texts};
ghost use Rattle.raw_steps.specs.Stands.{StandsRaw, raw_ahead};

use crate::framer::RawFramer;
use command_steps::{Kept, Stop, Tally, done, tell};
use lists::NoMem;
use raw_fix::{RawErr, RawStream, RawTaken};
use sbe_base::{Limits, Sink, Source, Status};
use std::alloc::Global;

/// A command, and the items of the stream that are still to come.
#[derive(Drop)]
pub struct RawWork {
    pub command: RawFramer,
    pub limits: Limits,
    pub stream: RawStream,
}

impl RawWork {
    /// Work that has taken no item yet.
    pub fn open(alloc: Global, command: RawFramer, limits: Limits) -> Result<RawWork, NoMem>
        requires { IsBounded limits }
        ensures command { IfOk result (λ work. work.command ≡ command) }
        ensures limits { IfOk result (λ work. work.limits ≡ limits) }
        ensures stream { IfOk result (λ work. work.stream ≡ raw_opened limits.frame limits.input) }
    {
        let stream = RawStream::open(alloc, limits)?;
        Ok(RawWork {
            command,
            limits,
            stream,
        })
    }

    /// Takes the next item and writes its answer; or notes what ends the items, and returns the status of the run.
    #[inline(always)]
    pub fn answer_next<I: Source, O: Sink, N: Sink>(
        &mut self,
        kept: &Kept,
        input: &mut I,
        output: &mut O,
        notes: &mut N,
    ) -> Result<Tally, Status>
        requires bounded { IsBounded self.old.limits }
        requires stands { StandsRaw self.old.limits self.old.stream kept.now }
        ensures answers { Answers (by_texts self.old.command self.old.limits) (running kept.now (raw_ahead self.old.stream)) (raw_ahead self.new.stream)
            (streams_of (I.state input.old) (O.state output.old) (N.state notes.old))
            (streams_of (I.state input.new) (O.state output.new) (N.state notes.new))
            result }
        ensures command { self.new.command ≡ self.old.command }
        ensures limits { self.new.limits ≡ self.old.limits }
        ensures stands { IfOk result (λ tally. StandsRaw self.old.limits self.new.stream (counted_by kept.now tally.bytes tally.verdict)) }
        ensures countable { IfOk result (λ tally. CanCount kept.now tally) }
    {
        match self.command.take(&mut self.stream, input) {
            Ok(RawTaken::Message) => match self.command.answer(self.stream.text(), output) {
                Ok(verdict) => Ok(Tally {
                    bytes: self.stream.text().len() as u64,
                    verdict,
                }),
                Err(status) => Err(status),
            },
            Ok(RawTaken::Garbled { code, length, .. }) => {
                match self.command.note(kept, code, length, notes) {
                    Ok(verdict) => Ok(Tally {
                        bytes: length,
                        verdict,
                    }),
                    Err(status) => Err(status),
                }
            }
            Ok(RawTaken::End) => Err(done(kept)),
            Err(RawErr::InputLimit) => Err(tell(&Stop::InputLimit(self.limits.input), notes)),
            Err(RawErr::ReadFault) => Err(tell(&Stop::ReadFault(self.stream.taken()), notes)),
        }
    }
}
