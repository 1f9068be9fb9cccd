ghost use Rattle.std.specs.Prelude.{◌≡◌, true};
ghost use Rattle.schema_files.specs.Files.{JobCause, NamesLast};
ghost use Rattle.command_files.specs.Files.{LoadsFiles};
ghost use Rattle.command_steps.specs.Replies.{no_line};
ghost use Rattle.dump_command.specs.Dump.{put_so, IsDumpReply, dump_files};

use crate::dumped::put_dumped;
use command_steps::{FrameCommand, Kept, end_without_line};
use command_words::NameList;
use dump_lines::Schemas;
use flyweight_view::LastRefusal;
use printers::Chunk;
use replies::Verdict;
use sbe_base::{Files, Sink, Status, WriteFault};
use schema_files::{JobStop, load_schemas};
use std::alloc::Global;
use std::marker::Model;

/// Prints a line for each frame, by the schema that its message names.
#[derive(Drop)]
pub struct Dumper {
    schemas: Schemas,
    chunk: Chunk,
    last: LastRefusal,
}

impl Model for Dumper {
    ghost use Rattle.std.specs.Coded.{codes};
    ghost use Rattle.sbe_types.specs.contracts.kind.Kind as kind;
    ghost use Rattle.sbe_types.specs.contracts.schema.Level as level;
    ghost use Rattle.dump_lines.specs.Dumped.{AreInOrder};
    ghost use Rattle.dump_lines.specs.declared.schemas.Schemas.{Schemas};

    ghost Value = { Schemas };

    ghost coded = { Prim.hlevel (codes, kind.the_row.coded, level.the_row.coded) };

    ghost view = { λ dump. dump.schemas };

    ghost invariant = { λ dump. AreInOrder dump.schemas };
}

/// Loads and checks the schemas of a dump.
pub fn load_dump<F: Files>(
    alloc: Global,
    name: &str,
    also: &NameList,
    files: &mut F,
) -> Result<Dumper, JobStop>
    ensures kept { (F.state files.new).told ≡ (F.state files.old).told }
    ensures loads { LoadsFiles (dump_files name.now also.now) (F.state files.old).told result }
    ensures cause { JobCause (F.state files.old).faults (F.state files.new).faults result }
    ensures names { NamesLast (F.load_count files.old) (F.load_count files.new) result }
{
    match load_schemas(alloc, name, also, files) {
        Ok(schemas) => Ok(Dumper {
            schemas,
            chunk: Chunk::new(),
            last: LastRefusal::new(),
        }),
        Err(stop) => Err(stop),
    }
}

impl FrameCommand for Dumper {
    ghost is_reply = { IsDumpReply };

    ghost last = { no_line };

    ghost spares = { true };

    fn answer<O: Sink, N: Sink>(
        &mut self,
        kept: &Kept,
        encoding: u16,
        body: &[u8],
        output: &mut O,
        notes: &mut N,
    ) -> Result<Verdict, Status> {
        let _none = notes;
        let put = put_dumped(
            &self.schemas,
            kept.items,
            encoding,
            body,
            &mut self.chunk,
            &mut self.last,
            output,
        );
        verdict_of(put)
    }

    fn end<N: Sink>(&mut self, kept: &Kept, notes: &mut N) -> Status {
        end_without_line(kept, notes)
    }
}

/// What becomes of an item after its answer was written.
fn verdict_of(put: Result<bool, WriteFault>) -> Result<Verdict, Status>
    ensures { result ≡ put_so put }
{
    match put {
        Ok(true) => Ok(Verdict::Answered),
        Ok(false) => Ok(Verdict::Refused),
        Err(WriteFault) => Err(Status::WriteFault),
    }
}
