ghost use Rattle.std.specs.Prelude.{◌≡◌, IfOk};
ghost use Rattle.sbe_base.specs.Causes.{one_more};
ghost use Rattle.orchestra_map.specs.Headers.{IsKept};
ghost use Rattle.schema_files.specs.Files.{LoadCause};
ghost use Rattle.map_files.specs.Maps.{LoadsMap, ReadsMap, WasRead, too_long};

use json_elements::FILE_LIMIT;
use lists::Text;
use map_types::{MCode, MapErr, Repository};
use orchestra_map::read_map;
use sbe_base::{Files, LoadErr};
use schema_files::{FileRefusal, LoadStop};
use std::alloc::Global;

/// The mapping of this file, which keeps all rules.
pub fn load_map<F: Files>(alloc: Global, files: &mut F, name: &str) -> Result<Repository, LoadStop>
    ensures kept { (F.state files.new).told ≡ (F.state files.old).told }
    ensures loads { LoadsMap (F.state files.old).told name.now result }
    ensures cause { LoadCause (F.state files.old).faults (F.state files.new).faults result }
    ensures count { F.load_count files.new ≡ one_more (F.load_count files.old) }
    ensures rules { IfOk result (λ repository. IsKept repository) }
    ensures read { IfOk result (λ repository. WasRead repository) }
{
    let mut bytes = Vec::new(alloc);
    match files.load(alloc, name, FILE_LIMIT, &mut bytes) {
        Ok(()) => read_repository(alloc, bytes.as_slice()),
        Err(LoadErr::Failed) => Err(LoadStop::Fault),
        Err(LoadErr::Absent) => Err(LoadStop::Refused(FileRefusal::Absent)),
        Err(LoadErr::TooLong) => Err(LoadStop::Refused(too_long(alloc))),
        Err(LoadErr::Memory) => Err(LoadStop::NoMemory),
    }
}

/// The mapping that the bytes of a file hold.
fn read_repository(alloc: Global, bytes: &[u8]) -> Result<Repository, LoadStop>
    ensures reads { ReadsMap bytes.now result }
    ensures rules { IfOk result (λ repository. IsKept repository) }
    ensures read { IfOk result (λ repository. WasRead repository) }
{
    match read_map(alloc, bytes) {
        Ok(repository) => Ok(repository),
        Err(MapErr::Refused(code, path)) => {
            Err(LoadStop::Refused(FileRefusal::NoMap(code, path)))
        }
        Err(MapErr::Memory) => Err(LoadStop::NoMemory),
    }
}

/// The refusal of a file over its size limit, the same as the reader of mappings would give.
fn too_long(alloc: Global) -> FileRefusal
    ensures { result ≡ too_long }
{
    FileRefusal::NoMap(MCode::Limit, Text::new(alloc))
}
