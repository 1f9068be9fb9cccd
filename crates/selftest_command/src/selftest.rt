ghost use Rattle.std.specs.Prelude.{◌≡◌, ◌++◌, IfOk, OnOk};
ghost use Rattle.schema_files.specs.Files.{JobCause, NamesLast};
ghost use Rattle.command_files.specs.Files.{LoadsFiles};
ghost use Rattle.replies.specs.declared.verdict.Verdict.TheVariants.{Answered};
ghost use Rattle.selftest_command.specs.Selftest.{IsBoundedTrial, sums_line, sums_until};
ghost use Rattle.selftest_command.specs.Tests.{IsSelftestReply, selftest_files};

use crate::lines::put_sums;
use crate::trial::{Trial, sum_trial};
use command_steps::WholeCommand;
use layout_compile::compile;
use layout_tables::Layout;
use lists::NoMem;
use replies::{Draft, Verdict};
use sbe_base::Files;
use schema_check::Checked;
use schema_files::{FileRole, JobStop, load_checked};
use std::alloc::Global;
use std::marker::Model;

/// Draws messages of a schema, and adds up what becomes of them.
#[derive(Drop)]
pub struct Tester {
    alloc: Global,
    checked: Checked,
    layout: Layout,
    trial: Trial,
}

impl Model for Tester {
    ghost use Rattle.std.specs.Prelude.{◌≡◌};
    ghost use Rattle.std.specs.Coded.{codes};
    ghost use Rattle.sbe_types.specs.contracts.kind.Kind as kind;
    ghost use Rattle.sbe_types.specs.contracts.schema.Level as level;
    ghost use Rattle.selftest_command.specs.Selftest.{IsBoundedTrial};
    ghost use Rattle.selftest_command.specs.Tests.{Testing};

    ghost Value = { Testing };

    ghost coded = { Prim.hlevel (codes, kind.the_row.coded, level.the_row.coded) };

    ghost view = { λ test. record { schema = test.checked; trial = test.trial } };

    ghost invariant = { λ test. (test.layout ≡ test.checked) × IsBoundedTrial test.trial };
}

/// Loads and checks the schema of a selftest.
pub fn load_selftest<F: Files>(
    alloc: Global,
    name: &str,
    trial: Trial,
    files: &mut F,
) -> Result<Tester, JobStop>
    requires { IsBoundedTrial trial }
    ensures kept { (F.state files.new).told ≡ (F.state files.old).told }
    ensures loads { LoadsFiles (selftest_files name.now trial) (F.state files.old).told result }
    ensures cause { JobCause (F.state files.old).faults (F.state files.new).faults result }
    ensures names { NamesLast (F.load_count files.old) (F.load_count files.new) result }
{
    let checked = match load_checked(alloc, files, name) {
        Ok(checked) => checked,
        Err(stop) => return Err(stop.of(FileRole::Schema)),
    };
    match compile(alloc, &checked) {
        Ok(layout) => Ok(Tester {
            alloc,
            checked,
            layout,
            trial,
        }),
        Err(_) => Err(JobStop::NoMemory),
    }
}

impl WholeCommand for Tester {
    ghost is_reply = { IsSelftestReply };

    fn put(&self, draft: &mut Draft) -> Result<Verdict, NoMem> {
        put_trial(
            self.alloc,
            &self.checked,
            &self.layout,
            self.trial,
            &mut draft.output,
        )
    }
}

/// Appends the line of a trial's sums.
fn put_trial(
    alloc: Global,
    checked: &Checked,
    layout: &Layout,
    trial: Trial,
    output: &mut Vec<u8>,
) -> Result<Verdict, NoMem>
    requires layout { layout.now ≡ checked.now }
    requires bounded { IsBoundedTrial trial }
    ensures line { OnOk result (output.new.items ≡ output.old.items ++ sums_line (sums_until checked.now trial trial.count)) }
    ensures verdict { IfOk result (λ verdict. verdict ≡ Answered) }
{
    let sums = sum_trial(alloc, checked, layout, trial)?;
    put_sums(sums, output)?;
    Ok(Verdict::Answered)
}
