ghost use Rattle.std.specs.Prelude.{◌≡◌, ◌≤◌, ◌<◌, ◌==◌, ◌++◌, ◌∷◌, [], length, slice_get, Some, IfOk};

use lists::NoMem;
use std::alloc::Global;
use std::marker::Model;

/// The most fields that a text may have, counting 8, 9, 35 and 10.
pub const FIELD_LIMIT: usize = 4096;

/// A field of a text: its tag begins at `at`, and its value is the text's bytes from `from` up to `to`.
#[derive(Clone, Copy, Debug, PartialEq, Eq)]
pub struct FixField {
    pub tag: u32,
    pub at: usize,
    pub from: usize,
    pub to: usize,
}

/// The fields of a text by their ranges. All memory is allocated by `new`.
#[derive(Drop)]
pub struct FieldTable {
    memory: Vec<FixField>,
    len: usize,
}

impl Model for FieldTable {
    ghost use Rattle.std.specs.Prelude.{length, take, List, ◌≤◌, ◌≡◌};
    ghost use Rattle.tagvalue_codec.specs.declared.table.FixField.{FixField};
    ghost use Rattle.tagvalue_codec.specs.declared.table.TheConstants.{FIELD_LIMIT};

    ghost Value = { List FixField };

    ghost view = { λ t. take t.len t.memory.items };

    ghost invariant = { λ t. (t.len ≤ length t.memory.items) × (length t.memory.items ≡ FIELD_LIMIT) };
}

impl FieldTable {
    /// Allocates memory for as many fields as a text may have.
    ///
    /// # Errors
    ///
    /// If memory runs out.
    pub fn new(alloc: Global) -> Result<FieldTable, NoMem>
        ensures { IfOk result (λ t. t ≡ []) }
    {
        let none = FixField {
            tag: 0,
            at: 0,
            from: 0,
            to: 0,
        };
        let mut memory = Vec::new(alloc);
        memory.resize(FIELD_LIMIT, none)?;
        Ok(FieldTable { memory, len: 0 })
    }

    /// The number of fields it holds.
    pub fn len(&self) -> usize
        ensures same { result ≡ length self.now }
        ensures few { length self.now ≤ FIELD_LIMIT }
    {
        let _limit = self.memory.len();
        self.len
    }

    /// Field `i`, counted from 0.
    pub fn field(&self, i: usize) -> FixField
        requires { i < length self.now }
        ensures { slice_get self.now i ≡ Some result }
    {
        self.memory[i]
    }

    /// Removes all fields.
    pub(crate) fn clear(&mut self)
        ensures { self.new ≡ [] }
    {
        self.len = 0;
    }

    /// Whether there is no room for another field.
    pub(crate) fn is_full(&self) -> bool
        ensures same { result ≡ (length self.now == FIELD_LIMIT) }
        ensures few { length self.now ≤ FIELD_LIMIT }
    {
        self.len == self.memory.len()
    }

    /// Appends a field.
    #[tactic(auto, using(crate::proofs::Lists::take_set))]
    pub(crate) fn push(&mut self, field: FixField)
        requires { length self.old < FIELD_LIMIT }
        ensures { self.new ≡ self.old ++ field ∷ [] }
    {
        let len = self.len;
        self.memory[len] = field;
        self.len = len + 1;
    }
}
