ghost use Rattle.std.specs.Prelude.{◌≡◌, IfOk};
ghost use Rattle.schema_rules.specs.Kinds.{field_kind, members_named};
ghost use Rattle.type_kinds.specs.Tables.{kind_round};

use crate::counters::members_named;
use crate::kinds::{Kinds, field_kind, find_kinds, members_of};
use lists::NoMem;
use sbe_types::{FieldEl, Kind, MemberList};
use std::alloc::Global;
use std::marker::Model;
use type_facts::Declarations;

/// The declared types of an accepted schema, with the kind of each.
#[derive(Drop)]
pub struct Resolver {
    known: Declarations,
    kinds: Kinds,
}

impl Model for Resolver {
    ghost use Rattle.std.specs.Prelude.{◌≡◌, List};
    ghost use Rattle.sbe_types.specs.declared.tree.TypesItem.{TypesItem};
    ghost use Rattle.sbe_types.specs.contracts.tree.MemberItem as member;
    ghost use Rattle.std.specs.Coded.{codes};
    ghost use Rattle.type_kinds.specs.Tables.{kind_round};

    ghost Value = { List TypesItem };

    ghost coded = { Prim.hlevel (codes, member.the_row.coded) };

    ghost view = { λ all. all.known };

    ghost invariant = { λ all. all.kinds ≡ kind_round 4 all.known };
}

impl Resolver {
    /// Adds the kind of each type.
    pub fn new(alloc: Global, known: Declarations) -> Result<Resolver, NoMem>
        ensures { IfOk result (λ all. all ≡ known) }
    {
        let kinds = kinds_of(alloc, &known)?;
        Ok(Resolver { known, kinds })
    }

    /// What is known of the types.
    pub fn known(&self) -> &Declarations
        ensures { result.now ≡ self.now }
    {
        &self.known
    }

    /// The kind of a field.
    pub fn field_kind(&self, alloc: Global, field: &FieldEl) -> Result<Kind, NoMem>
        ensures { IfOk result (λ kind. kind ≡ field_kind self.now field.now) }
    {
        field_kind(alloc, self.known.types(), &self.kinds, field)
    }

    /// The members of the composite that a name stands for, with their kinds.
    pub fn members_named(&self, alloc: Global, name: &[u8]) -> Result<MemberList, NoMem>
        ensures { IfOk result (λ members. members ≡ members_named self.now name.now) }
    {
        let members = members_named(self.known.types(), name);
        members_of(alloc, self.known.types(), &self.kinds, members)
    }
}

fn kinds_of(alloc: Global, known: &Declarations) -> Result<Kinds, NoMem>
    ensures { IfOk result (λ kinds. kinds ≡ kind_round 4 known.now) }
{
    find_kinds(alloc, known.types())
}
