ghost use Rattle.std.specs.Prelude.{◌≡◌, IfOk};
ghost use Rattle.map_types.specs.Trees.{members_of};
ghost use Rattle.orchestra_map.specs.DataFields.{pairs_of};
ghost use Rattle.schema_files.specs.Files.{JobCause, NamesLast};
ghost use Rattle.command_files.specs.Files.{LoadsFiles};
ghost use Rattle.fixcheck_command.specs.FixCheck.{fixcheck_files};

use lists::NoMem;
use map_files::load_map;
use map_types::Repository;
use orchestra_map::data_tags;
use raw_steps::RawFramer;
use sbe_base::Files;
use schema_files::{FileRole, JobStop};
use std::alloc::Global;

/// Loads and checks the mapping of a rawframe, which is that of a fixcheck.
pub fn load_rawframe<F: Files>(
    alloc: Global,
    name: &str,
    files: &mut F,
) -> Result<RawFramer, JobStop>
    ensures kept { (F.state files.new).told ≡ (F.state files.old).told }
    ensures loads { LoadsFiles (fixcheck_files name.now) (F.state files.old).told result }
    ensures cause { JobCause (F.state files.old).faults (F.state files.new).faults result }
    ensures names { NamesLast (F.load_count files.old) (F.load_count files.new) result }
{
    let repository = match load_map(alloc, files, name) {
        Ok(repository) => repository,
        Err(stop) => return Err(stop.of(FileRole::Map)),
    };
    match framer_of(alloc, &repository) {
        Ok(framer) => Ok(framer),
        Err(_) => Err(JobStop::NoMemory),
    }
}

/// Allocates all memory that the answers to items need.
fn framer_of(alloc: Global, repository: &Repository) -> Result<RawFramer, NoMem>
    ensures { IfOk result (λ framer. framer ≡ pairs_of (members_of repository.now)) }
{
    let tags = data_tags(alloc, repository)?;
    RawFramer::new(alloc, tags)
}
