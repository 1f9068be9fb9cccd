ghost use Rattle.std.specs.Prelude.{◌≡◌, ◌≤◌, ℕ, false, IfOk};
ghost use Rattle.map_types.specs.Trees.{members_of};
ghost use Rattle.orchestra_map.specs.Headers.{IsKept};
ghost use Rattle.bridge_plan.specs.CheckedLevels.{HasShortCodes};
ghost use Rattle.bridge_mapping.specs.Mapped.{mapping_of};
ghost use Rattle.schema_files.specs.Files.{loads_with_map, JobCause, NamesLastBy};
ghost use Rattle.command_files.specs.Files.{LoadsFiles};
ghost use Rattle.command_steps.specs.Replies.{no_line};
ghost use Rattle.command_steps.specs.Stands.{IsBounded};
ghost use Rattle.tosbe_command.specs.Bridges.{bridge_of, tosbe_files, IsBackBridge, IsReadPair};
ghost use Rattle.tosbe_command.specs.ToSbe.{IsToSbeReply};

use crate::answer::answer_frame;
use crate::bridge::Bridge;
use crate::files::BridgeFiles;
use crate::space::MessageSpace;
use command_steps::{FrameCommand, Kept, end_without_line};
use lists::NoMem;
use map_files::load_map;
use open_framing::HEAD_BYTES;
use replies::Verdict;
use sbe_base::{Files, Limits, Sink, Status};
use schema_files::{FileRole, JobStop, load_checked};
use std::alloc::Global;
use std::marker::Model;

/// Translates tag-value texts to messages by a mapping.
#[derive(Drop)]
pub struct BackTranslator {
    bridge: Bridge,
    space: MessageSpace,
}

impl Model for BackTranslator {
    ghost use Rattle.std.specs.Coded.{codes};
    ghost use Rattle.sbe_types.specs.contracts.kind.Kind as kind;
    ghost use Rattle.sbe_types.specs.contracts.schema.Level as level;
    ghost use Rattle.tosbe_command.specs.Bridges.{BackBridge, HasRoom};

    ghost Value = { BackBridge };

    ghost coded = { Prim.hlevel (codes, kind.the_row.coded, level.the_row.coded) };

    ghost view = { λ it. it.bridge };

    ghost invariant = { λ it. HasRoom it.bridge.frame it.space.buffer.limit };
}

/// Loads and checks a schema, and then a mapping.
pub fn load_tosbe<F: Files>(
    alloc: Global,
    schema: &str,
    map: &str,
    limits: Limits,
    files: &mut F,
) -> Result<BackTranslator, JobStop>
    requires { IsBounded limits }
    ensures kept { (F.state files.new).told ≡ (F.state files.old).told }
    ensures loads { LoadsFiles (tosbe_files schema.now map.now limits.frame) (F.state files.old).told result }
    ensures cause { JobCause (F.state files.old).faults (F.state files.new).faults result }
    ensures names { NamesLastBy loads_with_map (F.load_count files.old) (F.load_count files.new) result }
{
    let files = match load_files(alloc, schema, map, files) {
        Ok(files) => files,
        Err(stop) => return Err(stop),
    };
    match BackTranslator::new(alloc, files, limits.frame) {
        Ok(translator) => Ok(translator),
        Err(NoMem) => Err(JobStop::NoMemory),
    }
}

/// Loads and checks both files.
fn load_files<F: Files>(
    alloc: Global,
    schema: &str,
    map: &str,
    files: &mut F,
) -> Result<BridgeFiles, JobStop>
    ensures kept { (F.state files.new).told ≡ (F.state files.old).told }
    ensures loads { (frame : ℕ) → LoadsFiles (tosbe_files schema.now map.now frame) (F.state files.old).told (bridge_of frame result) }
    ensures cause { JobCause (F.state files.old).faults (F.state files.new).faults result }
    ensures names { NamesLastBy loads_with_map (F.load_count files.old) (F.load_count files.new) result }
    ensures good { IfOk result (λ both. IsReadPair both) }
{
    let checked = match load_checked(alloc, files, schema) {
        Ok(checked) => checked,
        Err(stop) => return Err(stop.of(FileRole::Schema)),
    };
    let _schema = checked.schema();
    match load_map(alloc, files, map) {
        Ok(repository) => Ok(BridgeFiles {
            checked,
            repository,
        }),
        Err(stop) => Err(stop.of(FileRole::Map)),
    }
}

impl BackTranslator {
    /// Allocates all memory that the replies keep.
    fn new(alloc: Global, files: BridgeFiles, frame: usize) -> Result<BackTranslator, NoMem>
        requires kept { IsKept files.repository }
        requires short { HasShortCodes (mapping_of (members_of files.repository)) }
        requires low { 64 ≤ frame }
        requires high { frame ≤ 16_777_216 }
        ensures is { IfOk result (λ it. it ≡ record { schema = files.checked; repository = files.repository; frame = frame }) }
        ensures good { IfOk result (λ it. IsBackBridge it) }
    {
        let space = MessageSpace::new(alloc, frame - HEAD_BYTES)?;
        let bridge = Bridge::new(alloc, files, frame)?;
        Ok(BackTranslator { bridge, space })
    }
}

impl FrameCommand for BackTranslator {
    ghost is_reply = { IsToSbeReply };

    ghost last = { no_line };

    ghost spares = { false };

    fn answer<O: Sink, N: Sink>(
        &mut self,
        kept: &Kept,
        encoding: u16,
        body: &[u8],
        output: &mut O,
        notes: &mut N,
    ) -> Result<Verdict, Status> {
        answer_frame(
            &self.bridge,
            kept.items,
            encoding,
            body,
            &mut self.space,
            output,
            notes,
        )
    }

    fn end<N: Sink>(&mut self, kept: &Kept, notes: &mut N) -> Status {
        end_without_line(kept, notes)
    }
}
