ghost use Rattle.std.specs.Prelude.{◌≡◌, [], ◌∷◌, ◌++◌, false, OnOk, OnErr};
ghost use Rattle.std.specs.List.{list_any};
ghost use Rattle.std.specs.Str.{bytes_eq};

use indexmap::IndexSet;
use lists::NoMem;
use std::alloc::Global;
use std::marker::Model;

/// Names in their order, no two of which are equal.
#[derive(Drop)]
pub struct NameTable {
    names: IndexSet<Vec<u8>>,
}

impl Model for NameTable {
    ghost use Rattle.std.specs.Prelude.{ℕ, List, map};
    ghost use Rattle.std.specs.Coded.{coded_list, coded_ℕ};

    ghost Value = { List (List ℕ) };

    ghost coded = { coded_list (coded_list coded_ℕ) };

    ghost view = { λ table. map (λ name. name.items) table.names.keys };
}

impl NameTable {
    /// Creates an empty table. Allocates nothing.
    pub fn new(alloc: Global) -> NameTable
        ensures { result ≡ [] }
    {
        NameTable {
            names: IndexSet::new(alloc),
        }
    }

    /// Whether the table contains a name.
    pub fn contains(&self, name: &[u8]) -> bool
        ensures { result ≡ list_any (bytes_eq name.now) self.now }
    {
        self.names.contains(name)
    }

    /// Appends a name that the table doesn't contain.
    pub fn push(&mut self, alloc: Global, name: &[u8]) -> Result<(), NoMem>
        requires { list_any (bytes_eq name.now) self.old ≡ false }
        ensures ok { OnOk result (self.new ≡ self.old ++ name.now ∷ []) }
        ensures err { OnErr result (self.new ≡ self.old) }
    {
        let name = Vec::from_slice(alloc, name)?;
        self.names.insert(name)?;
        Ok(())
    }
}
