ghost use Rattle.std.specs.Prelude.{◌≡◌, ◌++◌, IfOk, OnOk};
ghost use Rattle.schema_lines.specs.Lines.{message_lines};
ghost use Rattle.replies.specs.declared.verdict.Verdict.TheVariants.{Answered};
ghost use Rattle.schema_files.specs.Files.{JobCause, NamesLast};
ghost use Rattle.command_files.specs.Files.{LoadsFiles};
ghost use Rattle.check_command.specs.Check.{IsCheckReply, check_files};

use command_steps::WholeCommand;
use lists::NoMem;
use replies::{Draft, Verdict};
use sbe_base::Files;
use schema_check::Checked;
use schema_files::{FileRole, JobStop, load_checked};
use schema_lines::put_messages;
use std::alloc::Global;
use std::marker::Model;

/// Prints a line for each message of a schema.
#[derive(Drop)]
pub struct Checker {
    schema: Checked,
}

impl Model for Checker {
    ghost use Rattle.std.specs.Coded.{codes};
    ghost use Rattle.sbe_types.specs.contracts.kind.Kind as kind;
    ghost use Rattle.sbe_types.specs.contracts.schema.Level as level;
    ghost use Rattle.sbe_types.specs.declared.schema.WireSchema.{WireSchema};

    ghost Value = { WireSchema };

    ghost coded = { Prim.hlevel (codes, kind.the_row.coded, level.the_row.coded) };

    ghost view = { λ check. check.schema };
}

/// Loads and checks the schema of a check.
pub fn load_check<F: Files>(alloc: Global, name: &str, files: &mut F) -> Result<Checker, JobStop>
    ensures kept { (F.state files.new).told ≡ (F.state files.old).told }
    ensures loads { LoadsFiles (check_files name.now) (F.state files.old).told result }
    ensures cause { JobCause (F.state files.old).faults (F.state files.new).faults result }
    ensures names { NamesLast (F.load_count files.old) (F.load_count files.new) result }
{
    match load_checked(alloc, files, name) {
        Ok(schema) => Ok(Checker { schema }),
        Err(stop) => Err(stop.of(FileRole::Schema)),
    }
}

impl WholeCommand for Checker {
    ghost is_reply = { IsCheckReply };

    fn put(&self, draft: &mut Draft) -> Result<Verdict, NoMem> {
        put_checked(&self.schema, &mut draft.output)
    }
}

/// Appends the lines of a checked schema.
fn put_checked(schema: &Checked, output: &mut Vec<u8>) -> Result<Verdict, NoMem>
    ensures lines { OnOk result (output.new.items ≡ output.old.items ++ message_lines schema.now.messages) }
    ensures verdict { IfOk result (λ verdict. verdict ≡ Answered) }
{
    put_messages(schema.messages().as_slice(), output)?;
    Ok(Verdict::Answered)
}
