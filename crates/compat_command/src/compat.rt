ghost use Rattle.std.specs.Prelude.{◌≡◌, ◌++◌, IfOk, OnOk};
ghost use Rattle.version_laws.specs.Answer.{compat};
ghost use Rattle.schema_lines.specs.Texts.{Puts};
ghost use Rattle.compat_command.specs.Compat.{compared_line, compared_verdict, reason_name, IsCompatReply, compat_files};
ghost use Rattle.schema_files.specs.Files.{JobCause, NamesLast};
ghost use Rattle.command_files.specs.Files.{LoadsFiles};
ghost use Rattle.version_laws.specs.declared.difference.Compat.TheVariants as answer;

use command_steps::WholeCommand;
use lists::NoMem;
use replies::{Draft, Verdict};
use sbe_base::Files;
use schema_check::Checked;
use schema_files::{FileRole, JobStop, load_checked};
use schema_lines::{put, put_json_text};
use std::alloc::Global;
use std::marker::Model;
use version_laws::{Compat as Answer, Reason};
use version_project::extends;

/// Prints whether two schemas are compatible.
#[derive(Drop)]
pub struct Comparer {
    older: Checked,
    newer: Checked,
}

impl Model for Comparer {
    ghost use Rattle.std.specs.Coded.{codes};
    ghost use Rattle.sbe_types.specs.contracts.kind.Kind as kind;
    ghost use Rattle.sbe_types.specs.contracts.schema.Level as level;
    ghost use Rattle.compat_command.specs.Compat.{Pair};

    ghost Value = { Pair };

    ghost coded = { Prim.hlevel (codes, kind.the_row.coded, level.the_row.coded) };

    ghost view = { λ pair. record { older = pair.older; newer = pair.newer } };
}

/// Loads and checks two schemas: first the older one as a whole, and then the newer one.
pub fn load_compat<F: Files>(
    alloc: Global,
    older: &str,
    newer: &str,
    files: &mut F,
) -> Result<Comparer, JobStop>
    ensures kept { (F.state files.new).told ≡ (F.state files.old).told }
    ensures loads { LoadsFiles (compat_files older.now newer.now) (F.state files.old).told result }
    ensures cause { JobCause (F.state files.old).faults (F.state files.new).faults result }
    ensures names { NamesLast (F.load_count files.old) (F.load_count files.new) result }
{
    let older = match load_checked(alloc, files, older) {
        Ok(schema) => schema,
        Err(stop) => return Err(stop.of(FileRole::Old)),
    };
    match load_checked(alloc, files, newer) {
        Ok(newer) => Ok(Comparer { older, newer }),
        Err(stop) => Err(stop.of(FileRole::New)),
    }
}

impl WholeCommand for Comparer {
    ghost is_reply = { IsCompatReply };

    fn put(&self, draft: &mut Draft) -> Result<Verdict, NoMem> {
        put_compared(&self.older, &self.newer, &mut draft.output)
    }
}

/// Appends the line that states whether two schemas are compatible.
fn put_compared(older: &Checked, newer: &Checked, output: &mut Vec<u8>) -> Result<Verdict, NoMem>
    ensures line { OnOk result (output.new.items ≡ output.old.items ++ compared_line (compat older.now newer.now)) }
    ensures verdict { IfOk result (λ verdict. verdict ≡ compared_verdict (compat older.now newer.now)) }
{
    let alloc = *output.allocator();
    let answer = extends(alloc, older, newer)?;
    put_answer(&answer, output)?;
    Ok(verdict_of(&answer))
}

/// What becomes of the pair: it is refused if the newer schema doesn't extend the older one.
fn verdict_of(answer: &Answer) -> Verdict
    ensures { result ≡ compared_verdict answer.now }
{
    match answer {
        Answer::TwoWay | Answer::OneWay(_) => Verdict::Answered,
        Answer::No(_, _) => Verdict::Refused,
    }
}

fn put_answer(answer: &Answer, output: &mut Vec<u8>) -> Result<(), NoMem>
    ensures { Puts result output.old.items output.new.items (compared_line answer.now) }
{
    match answer {
        Answer::TwoWay => put(output, b"{\"compat\":\"TwoWay\"}\n"),
        Answer::OneWay(path) => put_one_way(path.as_slice(), output),
        Answer::No(path, reason) => put_no(path.as_slice(), *reason, output),
    }
}

fn put_one_way(path: &[u8], output: &mut Vec<u8>) -> Result<(), NoMem>
    ensures { Puts result output.old.items output.new.items (compared_line (answer.OneWay path.now)) }
{
    put(output, b"{\"compat\":\"OneWay\",\"path\":")?;
    put_json_text(output, path)?;
    put(output, b"}\n")
}

fn put_no(path: &[u8], reason: Reason, output: &mut Vec<u8>) -> Result<(), NoMem>
    ensures { Puts result output.old.items output.new.items (compared_line (answer.No path.now reason)) }
{
    put(output, b"{\"compat\":\"No\",\"path\":")?;
    put_json_text(output, path)?;
    put(output, b",\"reason\":\"")?;
    put(output, reason_name(reason).as_bytes())?;
    put(output, b"\"}\n")
}

/// The printed name of what differs.
fn reason_name(reason: Reason) -> &'static str
    ensures { result.now ≡ reason_name reason }
{
    match reason {
        Reason::Id => "Id",
        Reason::ByteOrder => "ByteOrder",
        Reason::Header => "Header",
        Reason::Version => "Version",
        Reason::Message => "Message",
        Reason::Part => "Part",
        Reason::Since => "Since",
        Reason::Place => "Place",
        Reason::Kind => "Kind",
    }
}
