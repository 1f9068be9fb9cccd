ghost use Rattle.std.specs.Prelude.{◌≡◌, ◌≤◌, [], ℕ, List, Option, length, OnOk, OnErr};
ghost use Rattle.sbe_base.specs.Loads.{CausedLoad, Loads, OutOfMemory};
ghost use Rattle.sbe_base.specs.Objects.{Object};
ghost use Rattle.sbe_base.specs.Causes.{one_more};

use std::alloc::Global;
use thiserror::Error;

/// Why a file wasn't loaded.
#[derive(Clone, Copy, Debug, PartialEq, Eq, Drop, Error)]
pub enum LoadErr {
    /// The call failed. The count of faults rose, or is at its largest value.
    #[error("the file could not be read")]
    Failed,
    /// No file has this name.
    #[error("no file has the name")]
    Absent,
    /// The file has more bytes than the limit.
    #[error("the file is too long")]
    TooLong,
    /// Out of memory.
    #[error("out of memory")]
    Memory,
}

/// A place where files are found by name.
pub trait Files {
    /// The bytes of the file of each name, if it models them, and the count of faults.
    ghost state: { Self → Object (List ℕ → Option (List ℕ)) };

    /// The number of files that were asked for. The count stays at the largest number of 64 bits.
    ghost load_count: { Self → ℕ };

    /// Replaces `into` by the bytes of the file with this name, of which there may be at most `limit`. After an error
    /// `into` is empty.
    fn load(
        &mut self,
        alloc: Global,
        name: &str,
        limit: usize,
        into: &mut Vec<u8>,
    ) -> Result<(), LoadErr>
        ensures kept { (state self.new).told ≡ (state self.old).told }
        ensures loads { Loads (state self.old).told name.now limit result into.new.items }
        ensures within { OnOk result (length into.new.items ≤ limit) }
        ensures empty { OnErr result (into.new.items ≡ []) }
        ensures cause { CausedLoad (state self.old).faults (state self.new).faults result }
        ensures memory { OutOfMemory (state self.old).told name.now limit result }
        ensures count { load_count self.new ≡ one_more (load_count self.old) };
}
