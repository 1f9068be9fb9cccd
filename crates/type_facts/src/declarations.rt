ghost use Rattle.std.specs.Prelude.{◌≡◌, IfOk};
ghost use Rattle.schema_rules.specs.Chains.{is_endless};
ghost use Rattle.schema_rules.specs.Facts.{fact_named, fact_of};

use crate::chains::{Chains, find_chains, goes_composite_on};
use crate::facts::{Facts, fact_in, find_facts, member_fact};
use crate::types::Types;
use lists::NoMem;
use sbe_types::{CompositeEl, MemberItem, TypesItem};
use schema_rules::Fact;
use std::alloc::Global;
use std::marker::Model;

/// The declared types of a schema, with what is known of each.
#[derive(Drop)]
pub struct Declarations {
    types: Types,
    facts: Facts,
    chains: Chains,
}

impl Model for Declarations {
    ghost use Rattle.std.specs.Prelude.{◌≡◌, List, length};
    ghost use Rattle.sbe_types.specs.declared.tree.TypesItem.{TypesItem};
    ghost use Rattle.sbe_types.specs.contracts.tree.MemberItem as member;
    ghost use Rattle.std.specs.Coded.{codes};
    ghost use Rattle.type_facts.specs.Tables.{fact_round, chain_round};

    ghost Value = { List TypesItem };

    ghost coded = { Prim.hlevel (codes, member.the_row.coded) };

    ghost view = { λ all. all.types };

    ghost invariant = { λ all. (all.facts ≡ fact_round 5 all.types) × (all.chains ≡ chain_round (length all.types) all.types) };
}

impl Declarations {
    /// Creates it from these types, in their order.
    pub fn new(alloc: Global, declared: Vec<TypesItem>) -> Result<Declarations, NoMem>
        ensures { IfOk result (λ all. all ≡ declared.items) }
    {
        let types = Types::new(alloc, declared)?;
        let facts = find_facts(alloc, &types)?;
        let chains = find_chains(alloc, &types)?;
        Ok(Declarations {
            types,
            facts,
            chains,
        })
    }

    /// The types.
    pub fn types(&self) -> &Types
        ensures { result.now ≡ self.now }
    {
        &self.types
    }

    /// The facts of the type that a name stands for.
    pub fn fact_named(&self, name: &[u8]) -> Fact
        ensures { result ≡ fact_named self.now name.now }
    {
        fact_in(&self.types, self.facts.as_slice(), name)
    }

    /// The facts of a member of a composite.
    pub fn fact_of(&self, member: &MemberItem) -> Fact
        ensures { result ≡ fact_of self.now member.now }
    {
        member_fact(&self.types, self.facts.as_slice(), member)
    }

    /// Whether a chain of composites that begins at it is endless.
    pub fn is_endless(&self, composite: &CompositeEl) -> bool
        ensures { result ≡ is_endless self.now composite.now }
    {
        goes_composite_on(&self.types, self.chains.as_slice(), composite)
    }
}
