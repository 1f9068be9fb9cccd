ghost use Rattle.std.specs.Prelude.{◌≡◌};
ghost use Rattle.sbe_base.specs.Causes.{one_more};
ghost use Rattle.schema_files.specs.FileChecks.{schema_in};
ghost use Rattle.schema_files.specs.Files.{LoadCause, LoadsChecked, Reads};

use crate::files::{FileRefusal, LoadStop};
use json_elements::FILE_LIMIT;
use sbe_base::{Files, LoadErr};
use sbe_schema::{SchemaErr, read_schema};
use schema_check::{CheckErr, Checked, check};
use std::alloc::Global;

/// The schema of this file, loaded and checked.
pub fn load_checked<F: Files>(alloc: Global, files: &mut F, name: &str) -> Result<Checked, LoadStop>
    ensures kept { (F.state files.new).told ≡ (F.state files.old).told }
    ensures loads { LoadsChecked (F.state files.old).told name.now result }
    ensures cause { LoadCause (F.state files.old).faults (F.state files.new).faults result }
    ensures count { F.load_count files.new ≡ one_more (F.load_count files.old) }
{
    let mut bytes = Vec::new(alloc);
    match files.load(alloc, name, FILE_LIMIT, &mut bytes) {
        Ok(()) => read_checked(alloc, bytes.as_slice()),
        Err(LoadErr::Failed) => Err(LoadStop::Fault),
        Err(LoadErr::Absent) => Err(LoadStop::Refused(FileRefusal::Absent)),
        Err(LoadErr::TooLong) => Err(LoadStop::Refused(FileRefusal::TooLong)),
        Err(LoadErr::Memory) => Err(LoadStop::NoMemory),
    }
}

/// The schema that the bytes of a file hold, checked.
fn read_checked(alloc: Global, bytes: &[u8]) -> Result<Checked, LoadStop>
    ensures { Reads (schema_in bytes.now) result }
{
    match read_schema(alloc, bytes) {
        Ok(schema) => match check(alloc, schema) {
            Ok(checked) => Ok(checked),
            Err(CheckErr::Refused(rule, path)) => {
                Err(LoadStop::Refused(FileRefusal::Broken(rule, path)))
            }
            Err(CheckErr::Memory) => Err(LoadStop::NoMemory),
        },
        Err(SchemaErr::Refused(cause, path)) => {
            Err(LoadStop::Refused(FileRefusal::Unread(cause, path)))
        }
        Err(SchemaErr::Memory) => Err(LoadStop::NoMemory),
    }
}
