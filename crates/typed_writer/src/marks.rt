ghost use Rattle.std.specs.Prelude.{◌≡◌, ◌≤◌, ◌<◌, [], length, replicate, slice_get, slice_set, Some, true, false, IfOk, not, ◌&&◌};
ghost use Rattle.std.specs.Option.{option_map};
ghost use Rattle.typed_writer.specs.Steps.{must_be_set, unset_from};
ghost use Rattle.sbe_types.specs.declared.limits.TheConstants.{PART_LIMIT};

use lists::NoMem;
use sbe_types::{Field, Kind, LeafShape, PART_LIMIT, Presence};
use std::alloc::Global;
use std::marker::Model;

/// Which fields of a block are set, in memory that was allocated at the start.
#[derive(Drop)]
pub(crate) struct Marks {
    memory: Vec<bool>,
    len: usize,
}

impl Model for Marks {
    ghost use Rattle.std.specs.Prelude.{length, take, List, Bool, ◌≤◌, ◌≡◌};
    ghost use Rattle.sbe_types.specs.declared.limits.TheConstants.{PART_LIMIT};

    ghost Value = { List Bool };

    ghost view = { λ m. take m.len m.memory.items };

    ghost invariant = { λ m. (m.len ≤ length m.memory.items) × (length m.memory.items ≡ PART_LIMIT) };
}

impl Marks {
    /// Allocates memory for the fields of any block.
    pub(crate) fn new(alloc: Global) -> Result<Marks, NoMem>
        ensures { IfOk result (λ m. m ≡ []) }
    {
        let mut memory = Vec::new(alloc);
        memory.resize(PART_LIMIT, false)?;
        Ok(Marks { memory, len: 0 })
    }

    /// Begins a block of `many` fields, none of which is set.
    #[tactic(auto, using(crate::proofs::Lists::take_same))]
    pub(crate) fn begin(&mut self, many: usize)
        requires { many ≤ PART_LIMIT }
        ensures { self.new ≡ replicate many false }
    {
        self.memory.fill(false);
        self.len = many;
    }

    /// How many fields the block has.
    pub(crate) fn len(&self) -> usize
        ensures { result ≡ length self.now }
    {
        let _memory = self.memory.len();
        self.len
    }

    /// Marks field `i` as set.
    pub(crate) fn mark(&mut self, i: usize)
        requires { i < length self.old }
        ensures { self.new ≡ slice_set self.old i true }
    {
        self.memory[i] = true;
    }

    /// Whether field `i` is set.
    pub(crate) fn is_set(&self, i: usize) -> bool
        requires { i < length self.now }
        ensures { slice_get self.now i ≡ Some result }
    {
        self.memory[i]
    }

    /// Whether field `i` must be set and isn't.
    fn wants(&self, i: usize, field: &Field) -> bool
        requires { i < length self.now }
        ensures { option_map (λ b. must_be_set field.now.kind && not b) (slice_get self.now i) ≡ Some result }
    {
        let set = self.is_set(i);
        must_be_set(&field.kind) && !set
    }

    /// The first of the block's fields that must be set and isn't.
    pub(crate) fn unset(&self, fields: &[Field]) -> Option<usize>
        requires { length self.now ≡ length fields.now }
        ensures { result ≡ unset_from 0 fields.now self.now }
    {
        for (i, field) in fields.iter().enumerate() {
            if self.wants(i, field) {
                return Some(i);
            }
        }
        None
    }
}

/// Whether a field must be set: it isn't a constant, and isn't an optional leaf or enum other than octets.
fn must_be_set(kind: &Kind) -> bool
    ensures { result ≡ must_be_set kind.now }
{
    match kind {
        Kind::Leaf(leaf) => {
            leaf.presence != Presence::Optional || leaf.shape == LeafShape::Octets
        }
        Kind::Enum(leaf, _) => leaf.presence != Presence::Optional,
        Kind::Const(_) => false,
        Kind::Set(_, _) | Kind::Comp(_) => true,
    }
}
