ghost use Rattle.std.specs.Prelude.{◌≡◌, ℕ, length, IfOk};
ghost use Rattle.dump_lines.specs.Dumped.{AreInOrder};
ghost use Rattle.sbe_base.specs.Causes.{one_more};
ghost use Rattle.dump_lines.specs.declared.schemas.Schemas.{Schemas as SchemaSet};
ghost use Rattle.schema_files.specs.FileChecks.{is_taken, Joins};
ghost use Rattle.schema_files.specs.Files.{further_schema, FailsAt, JobCause, LoadCause, LoadsJoining, LoadsMore, LoadsSchemas, NamesLast};

use crate::files::{FileRefusal, FileRole, JobStop, LoadStop};
use crate::schema_file::load_checked;
use command_words::{Name, NameList};
use dump_lines::Schemas;
use layout_compile::compile;
use lists::NoMem;
use sbe_base::Files;
use schema_check::Checked;
use std::alloc::Global;
use tree_json::LineLayout;

/// The schemas of a file and of further ones, loaded and checked in this order.
pub fn load_schemas<F: Files>(
    alloc: Global,
    name: &str,
    also: &NameList,
    files: &mut F,
) -> Result<Schemas, JobStop>
    ensures kept { (F.state files.new).told ≡ (F.state files.old).told }
    ensures loads { LoadsSchemas (F.state files.old).told name.now also.now result }
    ensures order { IfOk result (λ schemas. AreInOrder schemas) }
    ensures fails { FailsAt (length also.now) result }
    ensures cause { JobCause (F.state files.old).faults (F.state files.new).faults result }
    ensures names { NamesLast (F.load_count files.old) (F.load_count files.new) result }
{
    let first = match load_checked(alloc, files, name) {
        Ok(first) => first,
        Err(stop) => return Err(stop.of(FileRole::Schema)),
    };
    let Ok(lines) = line_layout(alloc, &first) else {
        return Err(JobStop::NoMemory);
    };
    let schemas = Schemas::new(alloc, lines);
    load_also(alloc, &first, schemas, also.as_slice(), files)
}

/// Adds the schemas of further files, which are counted from 1.
fn load_also<F: Files>(
    alloc: Global,
    first: &Checked,
    schemas: Schemas,
    also: &[Name],
    files: &mut F,
) -> Result<Schemas, JobStop>
    requires order { AreInOrder schemas }
    requires first { first.now ≡ schemas.first }
    ensures kept { (F.state files.new).told ≡ (F.state files.old).told }
    ensures loads { LoadsMore (F.state files.old).told schemas also.now result }
    ensures order { IfOk result (λ schemas. AreInOrder schemas) }
    ensures fails { FailsAt (length also.now) result }
    ensures cause { JobCause (F.state files.old).faults (F.state files.new).faults result }
    ensures names { (before : ℕ) → F.load_count files.old ≡ one_more before → NamesLast before (F.load_count files.new) result }
{
    let mut all = schemas;
    for i in 0..also.len() {
        let layout = match load_joining(alloc, first, &all, also[i].as_str(), files) {
            Ok(layout) => layout,
            Err(stop) => return Err(stop.of(FileRole::Also(i + 1))),
        };
        let Ok(()) = all.push(layout) else {
            return Err(JobStop::NoMemory);
        };
    }
    Ok(all)
}

/// The schema of a further file, which has an id of its own and the form of the first schema.
fn load_joining<F: Files>(
    alloc: Global,
    first: &Checked,
    schemas: &Schemas,
    name: &str,
    files: &mut F,
) -> Result<LineLayout, LoadStop>
    requires { first.now ≡ schemas.now.first }
    ensures kept { (F.state files.new).told ≡ (F.state files.old).told }
    ensures loads { LoadsJoining (F.state files.old).told schemas.now name.now result }
    ensures cause { LoadCause (F.state files.old).faults (F.state files.new).faults result }
    ensures count { F.load_count files.new ≡ one_more (F.load_count files.old) }
{
    let checked = match load_checked(alloc, files, name) {
        Ok(checked) => checked,
        Err(stop) => return Err(stop),
    };
    if let Some(why) = why_not_joined(first, schemas.has_id(checked.id()), &checked) {
        return Err(LoadStop::Refused(why));
    }
    match line_layout(alloc, &checked) {
        Ok(lines) => Ok(lines),
        Err(_) => Err(LoadStop::NoMemory),
    }
}

/// Why a further schema isn't taken: an earlier one has its id, or its messages begin in another form than those of the
/// first.
pub fn why_not_joined(first: &Checked, taken: bool, further: &Checked) -> Option<FileRefusal>
    ensures { (schemas : SchemaSet) → schemas.first ≡ first.now → taken ≡ is_taken schemas further.now.id
        → Joins schemas further.now (further_schema further.now result) }
{
    if taken {
        return Some(FileRefusal::SameId);
    }
    if !first.same_form(further) {
        return Some(FileRefusal::FormDiffers);
    }
    None
}

/// The layout of a checked schema with the texts of its lines.
fn line_layout(alloc: Global, checked: &Checked) -> Result<LineLayout, NoMem>
    ensures { IfOk result (λ lines. lines ≡ checked.now) }
{
    LineLayout::new(alloc, compile(alloc, checked)?)
}
