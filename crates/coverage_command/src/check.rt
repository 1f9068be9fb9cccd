ghost use Rattle.std.specs.Prelude.{◌≡◌, ◌++◌, IfOk, OnOk};
ghost use Rattle.map_types.specs.Trees.{members_of};
ghost use Rattle.orchestra_map.specs.Headers.{IsKept};
ghost use Rattle.bridge_mapping.specs.Mapped.{mapping_of};
ghost use Rattle.replies.specs.declared.verdict.Verdict.TheVariants.{Answered};
ghost use Rattle.schema_files.specs.Files.{loads_with_map, JobCause, NamesLastBy};
ghost use Rattle.command_files.specs.Files.{LoadsFiles};
ghost use Rattle.coverage_command.specs.Coverage.{coverage_files, coverage_lines, IsCoverageReply};

use crate::lines::put_coverage;
use command_steps::WholeCommand;
use lists::NoMem;
use map_files::load_map;
use map_types::Repository;
use message_plans::make_plan;
use replies::{Draft, Verdict};
use sbe_base::Files;
use schema_check::Checked;
use schema_files::{FileRole, JobStop, load_checked};
use std::alloc::Global;
use std::marker::Model;
use value_texts::ValueText;

/// Prints for each message of a schema whether a mapping covers it.
#[derive(Drop)]
pub struct CoverageChecker {
    schema: Checked,
    repository: Repository,
}

impl Model for CoverageChecker {
    ghost use Rattle.std.specs.Coded.{codes};
    ghost use Rattle.sbe_types.specs.contracts.kind.Kind as kind;
    ghost use Rattle.sbe_types.specs.contracts.schema.Level as level;
    ghost use Rattle.orchestra_map.specs.Headers.{IsKept};
    ghost use Rattle.coverage_command.specs.Coverage.{Pair};

    ghost Value = { Pair };

    ghost coded = { Prim.hlevel (codes, kind.the_row.coded, level.the_row.coded) };

    ghost view = { λ pair. record { schema = pair.schema; repository = pair.repository } };

    ghost invariant = { λ pair. IsKept pair.repository };
}

/// Loads and checks a schema, and then a mapping.
pub fn load_coverage<F: Files>(
    alloc: Global,
    schema: &str,
    map: &str,
    files: &mut F,
) -> Result<CoverageChecker, JobStop>
    ensures kept { (F.state files.new).told ≡ (F.state files.old).told }
    ensures loads { LoadsFiles (coverage_files schema.now map.now) (F.state files.old).told result }
    ensures cause { JobCause (F.state files.old).faults (F.state files.new).faults result }
    ensures names { NamesLastBy loads_with_map (F.load_count files.old) (F.load_count files.new) result }
{
    let schema = match load_checked(alloc, files, schema) {
        Ok(schema) => schema,
        Err(stop) => return Err(stop.of(FileRole::Schema)),
    };
    match load_map(alloc, files, map) {
        Ok(repository) => Ok(CoverageChecker { schema, repository }),
        Err(stop) => Err(stop.of(FileRole::Map)),
    }
}

impl WholeCommand for CoverageChecker {
    ghost is_reply = { IsCoverageReply };

    fn put(&self, draft: &mut Draft) -> Result<Verdict, NoMem> {
        put_checked(&self.schema, &self.repository, &mut draft.output)
    }
}

/// Appends the lines of a checked schema, and what the mapping says of each message.
fn put_checked(
    schema: &Checked,
    repository: &Repository,
    output: &mut Vec<u8>,
) -> Result<Verdict, NoMem>
    requires { IsKept repository.now }
    ensures lines { OnOk result (output.new.items ≡ output.old.items ++ coverage_lines (mapping_of (members_of repository.now)) schema.now.messages) }
    ensures verdict { IfOk result (λ verdict. verdict ≡ Answered) }
{
    let alloc = *output.allocator();
    let plan = make_plan::<ValueText>(alloc, schema, repository)?;
    put_coverage(&plan, schema.messages().as_slice(), output)?;
    Ok(Verdict::Answered)
}
