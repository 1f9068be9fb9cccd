//! The files of the command, loaded and checked.

ghost use Rattle.std.specs.Prelude.{◌≡◌, ◌≤◌, ℕ, length, IfOk};
ghost use Rattle.open_framing.specs.declared.head.TheConstants.{HEAD_BYTES};
ghost use Rattle.sbe_base.specs.Causes.{one_more};
ghost use Rattle.map_types.specs.Trees.{members_of};
ghost use Rattle.orchestra_map.specs.Headers.{IsKept};
ghost use Rattle.bridge_mapping.specs.Mapped.{mapping_of};
ghost use Rattle.dump_lines.specs.Dumped.{AreInOrder};
ghost use Rattle.schema_files.specs.FileChecks.{alone};
ghost use Rattle.schema_files.specs.Files.{loads_with_map, FailsAt, JobCause, LoadCause, LoadsJoining, LoadsMore, NamesLastBy};
ghost use Rattle.command_words.specs.Words.{HasFields};
ghost use Rattle.command_files.specs.Files.{LoadsFiles};
ghost use Rattle.fix_translation.specs.Translations.{HasKinds};
ghost use Rattle.tofix_command.specs.Bridges.{tofix_files, words_in, IsMade, LoadsMapped};
ghost use Rattle.tofix_command.specs.Planned.{all_laid_out, laid_out, schemas_of, ArePlannedBy, IsPlannedBy};

use crate::tofix::{Desk, Translator};
use crate::translations::{Translation, Translations};
use command_words::{HeadWords, Name, NameList};
use layout_compile::compile;
use lists::{List, NoMem};
use map_files::load_map;
use map_types::Repository;
use message_plans::make_plan;
use sbe_base::Files;
use schema_check::Checked;
use schema_files::{FileRole, JobStop, LoadStop, load_checked, why_not_joined};
use std::alloc::Global;

/// What the arguments give to a run.
#[derive(Drop)]
pub struct ToFixWords<'a> {
    /// The name of the schema's file.
    pub schema: &'a str,
    /// The name of the mapping's file.
    pub map: &'a str,
    /// The names of further schemas' files.
    pub also: &'a NameList,
    pub head: &'a HeadWords,
    /// How many bytes a frame that is written may have.
    pub frame: usize,
}

/// Loads and checks the schema, the mapping and the further schemas, in this order, and allocates all memory that the
/// answers need.
pub fn load_tofix<F: Files>(
    alloc: Global,
    words: &ToFixWords<'_>,
    files: &mut F,
) -> Result<Translator, JobStop>
    requires least { HEAD_BYTES ≤ words.now.frame }
    requires most { words.now.frame ≤ 16_777_216 }
    requires head { HasFields words.now.head.now }
    ensures kept { (F.state files.new).told ≡ (F.state files.old).told }
    ensures loads { LoadsFiles (tofix_files (words_in words.now)) (F.state files.old).told result }
    ensures cause { JobCause (F.state files.old).faults (F.state files.new).faults result }
    ensures names { NamesLastBy loads_with_map (F.load_count files.old) (F.load_count files.new) result }
{
    let first = match load_checked(alloc, files, words.schema) {
        Ok(first) => first,
        Err(stop) => return Err(stop.of(FileRole::Schema)),
    };
    load_mapped(alloc, words, &first, files)
}

/// The same after the first schema.
fn load_mapped<F: Files>(
    alloc: Global,
    words: &ToFixWords<'_>,
    first: &Checked,
    files: &mut F,
) -> Result<Translator, JobStop>
    requires least { HEAD_BYTES ≤ words.now.frame }
    requires most { words.now.frame ≤ 16_777_216 }
    requires head { HasFields words.now.head.now }
    ensures kept { (F.state files.new).told ≡ (F.state files.old).told }
    ensures loads { LoadsMapped (words_in words.now) first.now (F.state files.old).told result }
    ensures cause { JobCause (F.state files.old).faults (F.state files.new).faults result }
    ensures names { (before : ℕ) → F.load_count files.old ≡ one_more before → NamesLastBy loads_with_map before (F.load_count files.new) result }
{
    let repository = match load_map(alloc, files, words.map) {
        Ok(repository) => repository,
        Err(stop) => return Err(stop.of(FileRole::Map)),
    };
    match load_translations(alloc, words.also.as_slice(), first, &repository, files) {
        Ok(schemas) => translator_of(alloc, words, schemas, repository),
        Err(stop) => Err(stop),
    }
}

/// A translator of these schemas by this mapping.
fn translator_of(
    alloc: Global,
    words: &ToFixWords<'_>,
    schemas: Translations,
    repository: Repository,
) -> Result<Translator, JobStop>
    requires least { HEAD_BYTES ≤ words.now.frame }
    requires most { words.now.frame ≤ 16_777_216 }
    requires head { HasFields words.now.head.now }
    requires order { AreInOrder (schemas_of schemas) }
    requires planned { ArePlannedBy (mapping_of (members_of repository)) schemas }
    requires kinds { HasKinds (mapping_of (members_of repository)) }
    ensures { IsMade (words_in words.now) (schemas_of schemas) repository result }
{
    match Desk::new(alloc, words.head, words.frame) {
        Ok(desk) => Ok(Translator::over(desk, schemas, repository)),
        Err(NoMem) => {
            // Each is dropped by a call of its own, since the check of a function that drops both itself doesn't end.
            drop(schemas);
            drop(repository);
            Err(JobStop::NoMemory)
        }
    }
}

/// The first schema with its plans, and those of further files.
fn load_translations<F: Files>(
    alloc: Global,
    also: &[Name],
    first: &Checked,
    repository: &Repository,
    files: &mut F,
) -> Result<Translations, JobStop>
    requires { IsKept repository.now }
    ensures kept { (F.state files.new).told ≡ (F.state files.old).told }
    ensures loads { LoadsMore (F.state files.old).told (alone first.now) also.now (all_laid_out result) }
    ensures order { IfOk result (λ all. AreInOrder (schemas_of all)) }
    ensures planned { IfOk result (λ all. ArePlannedBy (mapping_of (members_of repository.now)) all) }
    ensures fails { FailsAt (length also.now) (all_laid_out result) }
    ensures cause { JobCause (F.state files.old).faults (F.state files.new).faults result }
    ensures names { (before : ℕ) → F.load_count files.old ≡ one_more (one_more before) → NamesLastBy loads_with_map before (F.load_count files.new) result }
{
    match start_with(alloc, first, repository) {
        Ok(start) => load_also(alloc, first, repository, start, also, files),
        Err(NoMem) => Err(JobStop::NoMemory),
    }
}

/// One schema alone.
fn start_with(
    alloc: Global,
    first: &Checked,
    repository: &Repository,
) -> Result<Translations, NoMem>
    requires { IsKept repository.now }
    ensures schemas { IfOk result (λ all. schemas_of all ≡ alone first.now) }
    ensures order { IfOk result (λ all. AreInOrder (schemas_of all)) }
    ensures planned { IfOk result (λ all. ArePlannedBy (mapping_of (members_of repository.now)) all) }
{
    let first = planned(alloc, first, repository)?;
    let _schema = first.layout.schema();
    Ok(Translations {
        first,
        also: List::new(alloc),
    })
}

/// A schema with the plans of its templates.
fn planned(alloc: Global, checked: &Checked, repository: &Repository) -> Result<Translation, NoMem>
    requires { IsKept repository.now }
    ensures layout { IfOk result (λ t. t.layout ≡ checked.now) }
    ensures planned { IfOk result (λ t. IsPlannedBy (mapping_of (members_of repository.now)) t) }
{
    let layout = compile(alloc, checked)?;
    let plan = make_plan(alloc, checked, repository)?;
    Ok(Translation { layout, plan })
}

/// The same schemas and those of further files, which are counted from 1.
fn load_also<F: Files>(
    alloc: Global,
    first: &Checked,
    repository: &Repository,
    schemas: Translations,
    also: &[Name],
    files: &mut F,
) -> Result<Translations, JobStop>
    requires mapping { IsKept repository.now }
    requires order { AreInOrder (schemas_of schemas) }
    requires planned { ArePlannedBy (mapping_of (members_of repository.now)) schemas }
    requires first { first.now ≡ schemas.first.layout }
    ensures kept { (F.state files.new).told ≡ (F.state files.old).told }
    ensures loads { LoadsMore (F.state files.old).told (schemas_of schemas) also.now (all_laid_out result) }
    ensures order { IfOk result (λ all. AreInOrder (schemas_of all)) }
    ensures planned { IfOk result (λ all. ArePlannedBy (mapping_of (members_of repository.now)) all) }
    ensures fails { FailsAt (length also.now) (all_laid_out result) }
    ensures cause { JobCause (F.state files.old).faults (F.state files.new).faults result }
    ensures names { (before : ℕ) → F.load_count files.old ≡ one_more (one_more before) → NamesLastBy loads_with_map before (F.load_count files.new) result }
{
    let mut all = schemas;
    for i in 0..also.len() {
        let further = match load_joining(alloc, first, repository, &all, also[i].as_str(), files) {
            Ok(further) => further,
            Err(stop) => return Err(stop.of(FileRole::Also(i + 1))),
        };
        let _schema = further.layout.schema();
        let Ok(()) = all.push(further) else {
            return Err(JobStop::NoMemory);
        };
    }
    Ok(all)
}

/// The schema of a further file, which has an id of its own and the form of the first.
fn load_joining<F: Files>(
    alloc: Global,
    first: &Checked,
    repository: &Repository,
    all: &Translations,
    name: &str,
    files: &mut F,
) -> Result<Translation, LoadStop>
    requires mapping { IsKept repository.now }
    requires first { first.now ≡ all.now.first.layout }
    ensures kept { (F.state files.new).told ≡ (F.state files.old).told }
    ensures loads { LoadsJoining (F.state files.old).told (schemas_of all.now) name.now (laid_out result) }
    ensures planned { IfOk result (λ t. IsPlannedBy (mapping_of (members_of repository.now)) t) }
    ensures cause { LoadCause (F.state files.old).faults (F.state files.new).faults result }
    ensures count { F.load_count files.new ≡ one_more (F.load_count files.old) }
{
    let checked = match load_checked(alloc, files, name) {
        Ok(checked) => checked,
        Err(stop) => return Err(stop),
    };
    if let Some(why) = why_not_joined(first, all.has_id(checked.id()), &checked) {
        return Err(LoadStop::Refused(why));
    }
    match planned(alloc, &checked, repository) {
        Ok(further) => Ok(further),
        Err(NoMem) => Err(LoadStop::NoMemory),
    }
}
