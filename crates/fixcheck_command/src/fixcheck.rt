ghost use Rattle.std.specs.Prelude.{◌≡◌, true, IfOk};
ghost use Rattle.map_types.specs.Trees.{members_of};
ghost use Rattle.orchestra_map.specs.DataFields.{pairs_of};
ghost use Rattle.schema_files.specs.Files.{JobCause, NamesLast};
ghost use Rattle.command_files.specs.Files.{LoadsFiles};
ghost use Rattle.command_steps.specs.Replies.{no_line};
ghost use Rattle.fixcheck_command.specs.FixCheck.{IsFixCheckReply, fixcheck_files};

use crate::answer::{TextSpace, answer_text};
use command_steps::{FrameCommand, Kept, end_without_line};
use lists::NoMem;
use map_files::load_map;
use map_types::Repository;
use orchestra_map::data_tags;
use replies::Verdict;
use sbe_base::{Files, Sink, Status};
use schema_files::{FileRole, JobStop};
use std::alloc::Global;
use std::marker::Model;
use tagvalue_codec::DataTags;

/// Checks each frame as a tag-value text, given the data fields of a mapping.
#[derive(Drop)]
pub struct FixChecker {
    tags: DataTags,
    space: TextSpace,
}

impl Model for FixChecker {
    ghost use Rattle.std.specs.Prelude.{List};
    ghost use Rattle.tagvalue_codec.specs.declared.data_tags.Pair.{Pair};

    ghost Value = { List Pair };

    ghost view = { λ check. check.tags };
}

/// Loads and checks the mapping of a fixcheck.
pub fn load_fixcheck<F: Files>(
    alloc: Global,
    name: &str,
    files: &mut F,
) -> Result<FixChecker, JobStop>
    ensures kept { (F.state files.new).told ≡ (F.state files.old).told }
    ensures loads { LoadsFiles (fixcheck_files name.now) (F.state files.old).told result }
    ensures cause { JobCause (F.state files.old).faults (F.state files.new).faults result }
    ensures names { NamesLast (F.load_count files.old) (F.load_count files.new) result }
{
    let repository = match load_map(alloc, files, name) {
        Ok(repository) => repository,
        Err(stop) => return Err(stop.of(FileRole::Map)),
    };
    match FixChecker::new(alloc, &repository) {
        Ok(checker) => Ok(checker),
        Err(_) => Err(JobStop::NoMemory),
    }
}

impl FixChecker {
    /// Allocates all memory that the answers to frames need.
    fn new(alloc: Global, repository: &Repository) -> Result<FixChecker, NoMem>
        ensures { IfOk result (λ checker. checker ≡ pairs_of (members_of repository.now)) }
    {
        let tags = data_tags(alloc, repository)?;
        let space = TextSpace::new(alloc)?;
        Ok(FixChecker { tags, space })
    }
}

impl FrameCommand for FixChecker {
    ghost is_reply = { IsFixCheckReply };

    ghost last = { no_line };

    ghost spares = { true };

    fn answer<O: Sink, N: Sink>(
        &mut self,
        kept: &Kept,
        encoding: u16,
        body: &[u8],
        output: &mut O,
        notes: &mut N,
    ) -> Result<Verdict, Status> {
        answer_text(
            &self.tags,
            kept.items,
            encoding,
            body,
            &mut self.space,
            output,
            notes,
        )
    }

    fn end<N: Sink>(&mut self, kept: &Kept, notes: &mut N) -> Status {
        end_without_line(kept, notes)
    }
}
