ghost use Rattle.std.specs.Prelude.{◌≡◌, ℕ, ◌<◌, ◌≤◌, ◌+◌, ◌++◌, ◌∷◌, [], nat_eq, IfOk, OnOk, OnErr};
ghost use Rattle.indexmap.specs.IndexMap.{get, spare};
ghost use Rattle.tagvalue_codec.specs.Pairs.{role_of, with_role};

use indexmap::IndexMap;
use lists::{List, NoMem};
use std::alloc::Global;
use std::marker::Model;

/// The role of a tag in the pairs of length tags and data tags.
#[derive(Clone, Copy, Debug, PartialEq, Eq)]
pub enum Role {
    /// It isn't in a pair.
    Plain,
    /// It is the length tag of this data tag.
    Length(u32),
    /// It is a data tag.
    Data,
}

/// A length tag and its data tag, such as `95` (RawDataLength) and `96` (RawData).
#[derive(Clone, Copy, Debug, PartialEq, Eq)]
pub struct Pair {
    pub length_tag: u32,
    pub tag: u32,
}

/// The number of marks. Nearly all tags in use are lower, so each has its own mark.
const MARKS: usize = 65_536;

/// The pairs of length tags and data tags. "Data fields are always immediately preceded by a length field."
///
/// A look-up costs the same for any number of pairs.
#[derive(Drop)]
pub struct DataTags {
    pairs: List<Pair>,
    /// Mark `tag % MARKS` is set for each tag of a pair. A tag whose mark isn't set isn't looked up.
    marks: Vec<bool>,
    /// The role of each tag of a pair.
    roles: IndexMap<u32, Role>,
}

impl Model for DataTags {
    ghost use Rattle.std.specs.Prelude.{◌≡◌, ℕ, List, nat_eq};
    ghost use Rattle.indexmap.specs.IndexMap.{get};
    ghost use Rattle.tagvalue_codec.specs.declared.data_tags.Pair.{Pair};
    ghost use Rattle.tagvalue_codec.specs.Pairs.{AreMarked, role_found};

    ghost Value = { List Pair };

    ghost view = { λ t. t.pairs };

    ghost invariant = { λ t. AreMarked t.marks.items t.pairs × ((tag : ℕ) → get nat_eq t.roles tag ≡ role_found t.pairs tag) };
}

impl DataTags {
    /// Creates it without pairs.
    ///
    /// # Errors
    ///
    /// If memory runs out.
    pub fn new(alloc: Global) -> Result<DataTags, NoMem>
        ensures { IfOk result (λ t. t ≡ []) }
    {
        let mut marks = Vec::new(alloc);
        marks.resize(MARKS, false)?;
        Ok(DataTags {
            pairs: List::new(alloc),
            marks,
            roles: IndexMap::new(alloc),
        })
    }

    /// Appends a pair. A tag that is in an earlier pair keeps its role there.
    ///
    /// # Errors
    ///
    /// If memory runs out. The pairs are then unchanged.
    pub fn add(&mut self, length_tag: u32, tag: u32) -> Result<(), NoMem>
        ensures ok { OnOk result (self.new ≡ self.old ++ record { length_tag = length_tag; tag = tag } ∷ []) }
        ensures err { OnErr result (self.new ≡ self.old) }
    {
        self.roles.reserve(2)?;
        self.pairs.push(Pair { length_tag, tag })?;
        set_role(&mut self.roles, length_tag, Role::Length(tag));
        set_role(&mut self.roles, tag, Role::Data);
        self.marks[length_tag as usize % MARKS] = true;
        self.marks[tag as usize % MARKS] = true;
        Ok(())
    }

    /// The role of a tag. If several pairs have the tag, the first one counts.
    #[inline(always)]
    pub fn role(&self, tag: u32) -> Role
        ensures { result ≡ role_of self.now tag }
    {
        if !self.marks[tag as usize % MARKS] {
            return Role::Plain;
        }
        match self.roles.get(&tag) {
            Some(role) => *role,
            None => Role::Plain,
        }
    }
}

/// Gives a tag its role, if it has none.
fn set_role(roles: &mut IndexMap<u32, Role>, tag: u32, role: Role)
    requires { 0 < spare roles.old }
    ensures roles { (t : ℕ) → get nat_eq roles.new t ≡ with_role tag role t (get nat_eq roles.old t) }
    ensures spare { spare roles.old ≤ spare roles.new + 1 }
{
    if roles.contains_key(&tag) {
        return;
    }
    match roles.insert(tag, role) {
        Ok(_) => {}
        Err(_) => unreachable!(),
    }
}
