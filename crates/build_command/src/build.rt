ghost use Rattle.std.specs.Prelude.{◌≡◌};
ghost use Rattle.schema_files.specs.Files.{JobCause, NamesLast};
ghost use Rattle.command_files.specs.Files.{LoadsFiles};
ghost use Rattle.command_steps.specs.Stands.{IsBounded};
ghost use Rattle.command_steps.specs.Replies.{no_line};
ghost use Rattle.build_command.specs.Builds.{IsBuildReply, build_files};

use crate::built::answer_built;
use crate::space::LineSpace;
use crate::target::Target;
use command_steps::{Kept, LineCommand, end_without_line};
use open_framing::HEAD_BYTES;
use replies::Verdict;
use sbe_base::{Files, Limits, Sink, Status};
use schema_files::{FileRole, JobStop, load_checked};
use std::alloc::Global;
use std::marker::Model;

/// Writes a frame for each line that is a message of the schema.
#[derive(Drop)]
pub struct Builder {
    alloc: Global,
    target: Target,
    frame: usize,
    space: LineSpace,
}

impl Model for Builder {
    ghost use Rattle.std.specs.Prelude.{◌≡◌, ◌≤◌};
    ghost use Rattle.std.specs.Coded.{codes};
    ghost use Rattle.sbe_types.specs.contracts.kind.Kind as kind;
    ghost use Rattle.sbe_types.specs.contracts.schema.Level as level;
    ghost use Rattle.schema_facts.specs.IsChecked.{IsChecked};
    ghost use Rattle.build_command.specs.Build.{body_limit};
    ghost use Rattle.build_command.specs.Builds.{Building};

    ghost Value = { Building };

    ghost coded = { Prim.hlevel (codes, kind.the_row.coded, level.the_row.coded) };

    ghost view = { λ build. record { schema = build.target; frame = build.frame } };

    ghost invariant = { λ build. IsChecked build.target × (build.frame ≤ 16_777_216) × (build.space.buffer.limit ≡ body_limit build.frame) };
}

/// Loads and checks the schema of a build.
pub fn load_build<F: Files>(
    alloc: Global,
    name: &str,
    limits: Limits,
    files: &mut F,
) -> Result<Builder, JobStop>
    requires { IsBounded limits }
    ensures kept { (F.state files.new).told ≡ (F.state files.old).told }
    ensures loads { LoadsFiles (build_files name.now limits.frame) (F.state files.old).told result }
    ensures cause { JobCause (F.state files.old).faults (F.state files.new).faults result }
    ensures names { NamesLast (F.load_count files.old) (F.load_count files.new) result }
{
    let checked = match load_checked(alloc, files, name) {
        Ok(checked) => checked,
        Err(stop) => return Err(stop.of(FileRole::Schema)),
    };
    let _schema = checked.schema();
    let Ok(target) = Target::new(alloc, checked) else {
        return Err(JobStop::NoMemory);
    };
    match LineSpace::new(alloc, limits.frame - HEAD_BYTES) {
        Ok(space) => Ok(Builder {
            alloc,
            target,
            frame: limits.frame,
            space,
        }),
        Err(_) => Err(JobStop::NoMemory),
    }
}

impl LineCommand for Builder {
    ghost is_reply = { IsBuildReply };

    ghost last = { no_line };

    fn answer<O: Sink, N: Sink>(
        &mut self,
        kept: &Kept,
        line: &[u8],
        output: &mut O,
        notes: &mut N,
    ) -> Result<Verdict, Status> {
        answer_built(
            self.alloc,
            &self.target,
            kept.items,
            line,
            &mut self.space,
            output,
            notes,
        )
    }

    fn end<N: Sink>(&mut self, kept: &Kept, notes: &mut N) -> Status {
        end_without_line(kept, notes)
    }
}
