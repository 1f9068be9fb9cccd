ghost use Rattle.std.specs.Prelude.{◌≡◌, ◌≤◌, false, IfOk};
ghost use Rattle.schema_files.specs.Files.{JobCause, NamesLast};
ghost use Rattle.command_files.specs.Files.{LoadsFiles};
ghost use Rattle.command_steps.specs.Stands.{IsBounded};
ghost use Rattle.regrade.specs.Regrades.{HasWay};
ghost use Rattle.regrade_command.specs.Regrade.{IsRegradable, IsRegradeReply, sums_line};
ghost use Rattle.regrade_command.specs.Regrades.{JudgesPairAs, regrade_files, way_stop};

use crate::answer::answer_frame;
use crate::pair::SchemaPair;
use crate::space::FrameSpace;
use crate::sums::tell_sums;
use command_steps::{FrameCommand, Kept};
use lists::NoMem;
use open_framing::HEAD_BYTES;
use regrade::{WayErr, way_of};
use replies::Verdict;
use sbe_base::{Files, Limits, Sink, Status};
use schema_check::Checked;
use schema_files::{FileRefusal, FileRole, JobStop, RefusedFile, load_checked};
use std::alloc::Global;
use std::marker::Model;

/// Rewrites the message of each frame to another version of its schema.
#[derive(Drop)]
pub struct Regrader {
    pair: SchemaPair,
    frame: usize,
    space: FrameSpace,
}

impl Model for Regrader {
    ghost use Rattle.std.specs.Prelude.{◌≡◌, ◌≤◌};
    ghost use Rattle.std.specs.Coded.{codes};
    ghost use Rattle.sbe_types.specs.contracts.kind.Kind as kind;
    ghost use Rattle.sbe_types.specs.contracts.schema.Level as level;
    ghost use Rattle.build_command.specs.Build.{body_limit};
    ghost use Rattle.regrade_command.specs.Regrade.{Regrading, IsRegradable};

    ghost Value = { Regrading };

    ghost coded = { Prim.hlevel (codes, kind.the_row.coded, level.the_row.coded) };

    ghost view = { λ it. record { pair = it.pair; frame = it.frame } };

    ghost invariant = { λ it. IsRegradable it.pair × (it.frame ≤ 16_777_216) × (it.space.buffer.limit ≡ body_limit it.frame) };
}

/// Loads and checks two schemas: first that of the messages that are read, as a whole, and then that of those that are written. The
/// later has to extend the earlier one.
pub fn load_regrade<F: Files>(
    alloc: Global,
    from: &str,
    to: &str,
    limits: Limits,
    files: &mut F,
) -> Result<Regrader, JobStop>
    requires { IsBounded limits }
    ensures kept { (F.state files.new).told ≡ (F.state files.old).told }
    ensures loads { LoadsFiles (regrade_files from.now to.now limits.frame) (F.state files.old).told result }
    ensures cause { JobCause (F.state files.old).faults (F.state files.new).faults result }
    ensures names { NamesLast (F.load_count files.old) (F.load_count files.new) result }
{
    let from = match load_checked(alloc, files, from) {
        Ok(schema) => schema,
        Err(stop) => return Err(stop.of(FileRole::From)),
    };
    match load_checked(alloc, files, to) {
        Ok(to) => judge_pair(alloc, from, to, limits),
        Err(stop) => Err(stop.of(FileRole::To)),
    }
}

/// The command of two accepted schemas, of which the later has to extend the earlier one.
fn judge_pair(
    alloc: Global,
    from: Checked,
    to: Checked,
    limits: Limits,
) -> Result<Regrader, JobStop>
    requires { IsBounded limits }
    ensures { JudgesPairAs (record { from = from; to = to }) limits.frame result }
{
    match way_of(alloc, &from, &to) {
        Ok(_way) => match Regrader::new(alloc, from, to, limits.frame) {
            Ok(regrader) => Ok(regrader),
            Err(NoMem) => Err(JobStop::NoMemory),
        },
        Err(why) => Err(stop_of(why)),
    }
}

/// Why there is no command of two schemas: the later one doesn't extend the earlier one, or it ran out of memory.
fn stop_of(why: WayErr) -> JobStop
    ensures { result ≡ way_stop why }
{
    match why {
        WayErr::NotAnExtension(path) => JobStop::Refused(RefusedFile {
            role: FileRole::To,
            why: FileRefusal::NotAnExtension(path),
        }),
        WayErr::Memory => JobStop::NoMemory,
    }
}

impl Regrader {
    /// Allocates all memory that the answers need. Requires schemas of which the later extends the earlier one.
    fn new(alloc: Global, from: Checked, to: Checked, frame: usize) -> Result<Regrader, NoMem>
        requires way { HasWay from to }
        requires low { 64 ≤ frame }
        requires high { frame ≤ 16_777_216 }
        ensures pair { IfOk result (λ on. on ≡ record { pair = record { from = from; to = to }; frame = frame }) }
        ensures good { IfOk result (λ on. IsRegradable on.pair) }
    {
        let _from = from.schema();
        let _to = to.schema();
        let pair = SchemaPair::new(alloc, from, to)?;
        let space = FrameSpace::new(alloc, frame - HEAD_BYTES)?;
        Ok(Regrader { pair, frame, space })
    }
}

impl FrameCommand for Regrader {
    ghost is_reply = { IsRegradeReply };

    ghost last = { sums_line };

    ghost spares = { false };

    /// A body that is longer than the frames for which memory was allocated isn't read. A step hands out no such body.
    fn answer<O: Sink, N: Sink>(
        &mut self,
        kept: &Kept,
        encoding: u16,
        body: &[u8],
        output: &mut O,
        notes: &mut N,
    ) -> Result<Verdict, Status> {
        if body.len() > self.frame {
            return Err(Status::NoMemory);
        }
        answer_frame(
            &self.pair,
            kept.items,
            encoding,
            body,
            &mut self.space,
            output,
            notes,
        )
    }

    fn end<N: Sink>(&mut self, kept: &Kept, notes: &mut N) -> Status {
        tell_sums(kept, notes)
    }
}
