ghost use Rattle.std.specs.Prelude.{◌≡◌, Ok, Err, IfOk};
ghost use Rattle.json_elements.specs.Reading.{Reading, Gives};
ghost use Rattle.map_types.specs.declared.tree.Repository.{Repository};
ghost use Rattle.orchestra_map.specs.Mappings.{code_of, mapping_from, kept, map_of, Answers};
ghost use Rattle.orchestra_map.specs.Headers.{IsKept};

use json_elements::{Cause, ElementErr, path_of};
use map_elements::read_repository;
use map_rules::judge;
use map_types::{MCode, MapErr, Repository};
use std::alloc::Global;

/// The repository of a mapping file, or the first refusal with its path: a JSON pointer for M01 to M04 and for the size
/// of the file, then the list and position of a member for the rules. docs/profile.md describes under "Mapping files"
/// what a file may contain.
///
/// # Errors
///
/// The first refusal, or out of memory.
pub fn read_map(alloc: Global, bytes: &[u8]) -> Result<Repository, MapErr>
    ensures answers { Answers result (map_of bytes.now) }
    ensures kept { IfOk result (λ repository. IsKept repository) }
{
    match read_repository(alloc, bytes) {
        Ok(repository) => keep(alloc, repository),
        Err(e) => Err(refusal_of(alloc, e)),
    }
}

/// The repository, if its members keep their rules.
fn keep(alloc: Global, repository: Repository) -> Result<Repository, MapErr>
    ensures answers { Answers result (mapping_from (Ok repository)) }
    ensures kept { IfOk result (λ repository. IsKept repository) }
{
    judge(alloc, &repository)?;
    Ok(repository)
}

/// The refusal of an element, an attribute or the file.
fn refusal_of(alloc: Global, e: ElementErr) -> MapErr
    ensures { (read : Reading Repository) → Gives (Err e) read → Answers (Err result) (mapping_from read) }
{
    match e {
        ElementErr::Memory => MapErr::Memory,
        ElementErr::Refused(cause, steps) => match path_of(alloc, steps.as_slice()) {
            Ok(path) => MapErr::Refused(code_of(cause), path),
            Err(_) => MapErr::Memory,
        },
    }
}

/// The code of what is wrong with an element, an attribute or the file.
fn code_of(cause: Cause) -> MCode
    ensures { result ≡ code_of cause }
{
    match cause {
        Cause::Xml => MCode::Xml,
        Cause::NotJson => MCode::NotJson,
        Cause::Shape => MCode::Shape,
        Cause::Missing => MCode::BadAttribute,
        Cause::BadAttribute => MCode::BadAttribute,
        Cause::Limit => MCode::Limit,
    }
}
