ghost use Rattle.std.specs.Prelude.{◌≡◌, ◌≤◌, ◌↔◌, Some, [], length, IfOk, OnOk, OnErr, position};
ghost use Rattle.sbe_base.specs.Calls.{IsListed, next_number, no_calls, one_call};
ghost use Rattle.sbe_base.specs.Loads.{CausedLoad, LoadsFrom, MayLoad};
ghost use Rattle.sbe_base.specs.Memory.{found, Replaces, is_failed};
ghost use Rattle.std.specs.Str.{bytes_eq};

use crate::calls::Calls;
use crate::{Files, LoadErr};
use lists::{Bytes, NoMem, Text};
use std::alloc::Global;
use std::marker::Model;

/// A file in memory.
#[derive(Drop)]
pub struct MemFile {
    name: Text,
    bytes: Bytes,
}

/// Files in memory. The calls of `load` whose numbers were given to `new` fail.
#[derive(Drop)]
pub struct MemFiles {
    alloc: Global,
    files: Vec<MemFile>,
    calls: Calls,
}

impl Model for MemFiles {
    ghost use Rattle.sbe_base.specs.Memory.{FilesState};

    ghost Value = { FilesState };

    ghost view = { λ files. record { files = files.files.items; calls = files.calls } };
}

impl MemFiles {
    /// Creates it without files. The calls of `load` with these numbers, counted from 1, will fail.
    pub fn new(alloc: Global, failing: &[u64]) -> Result<MemFiles, NoMem>
        ensures files { IfOk result (λ files. files.files ≡ []) }
        ensures calls { IfOk result (λ files. files.calls ≡ no_calls failing.now) }
    {
        Ok(MemFiles {
            alloc,
            files: Vec::new(alloc),
            calls: Calls::new(alloc, failing)?,
        })
    }

    /// Adds the file, or replaces the one with this name. If memory runs out, nothing changes.
    pub fn put(&mut self, name: &str, bytes: &[u8]) -> Result<(), NoMem>
        ensures ok { OnOk result (Replaces self.old self.new name.now bytes.now) }
        ensures err { OnErr result (self.new ≡ self.old) }
    {
        let bytes = Bytes::from_slice(self.alloc, bytes)?;
        match place_of(self.files.as_slice(), name.as_bytes()) {
            Some(i) => self.files[i].bytes = bytes,
            None => {
                let name = Text::from_slice(self.alloc, name.as_bytes())?;
                self.files.push(MemFile { name, bytes })?;
            }
        }
        Ok(())
    }
}

impl Files for MemFiles {
    ghost state = { λ files. record { told = Some (λ name. found name files.files); faults = files.calls.faults } };

    ghost load_count = { λ files. files.calls.made };

    fn load(
        &mut self,
        _alloc: Global,
        name: &str,
        limit: usize,
        into: &mut Vec<u8>,
    ) -> Result<(), LoadErr>
        ensures kept { self.new.files ≡ self.old.files }
        ensures loads { LoadsFrom (found name.now self.old.files) limit result into.new.items }
        ensures within { OnOk result (length into.new.items ≤ limit) }
        ensures empty { OnErr result (into.new.items ≡ []) }
        ensures cause { CausedLoad self.old.calls.faults self.new.calls.faults result }
        ensures memory { result ≡ Err LoadErr.Memory → MayLoad (found name.now self.old.files) limit }
        ensures count { self.new.calls.made ≡ next_number self.old.calls }

        // It fails exactly at the listed calls.
        ensures fails { (result ≡ Err LoadErr.Failed) ↔ IsListed self.old.calls }
        ensures counted { self.new.calls ≡ one_call self.old.calls (is_failed result) }
    {
        into.clear();
        if self.calls.count() {
            self.calls.fault();
            return Err(LoadErr::Failed);
        }
        let Some(i) = place_of(self.files.as_slice(), name.as_bytes()) else {
            return Err(LoadErr::Absent);
        };
        let bytes = self.files[i].bytes.as_slice();
        if bytes.len() > limit {
            return Err(LoadErr::TooLong);
        }
        let Ok(()) = into.extend_from_slice(bytes) else {
            return Err(LoadErr::Memory);
        };
        Ok(())
    }
}

/// The index of the first file with this name.
fn place_of(files: &[MemFile], name: &[u8]) -> Option<usize>
    ensures { result ≡ position (λ file. bytes_eq file.name name.now) files.now }
{
    files.iter().position(|file| file.name.as_slice() == name)
}
