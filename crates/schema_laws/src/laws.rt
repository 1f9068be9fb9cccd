//! Laws of the definitions, stated as functions without a body.

ghost use Rattle.std.specs.Prelude.{◌≡◌, ◌↔◌, ℕ, List, Some, slice_get, true};
ghost use Rattle.sbe_types.specs.declared.tree.CompositeEl.{CompositeEl};
ghost use Rattle.sbe_types.specs.declared.tree.TypesItem.{TypesItem};
ghost use Rattle.sbe_types.specs.declared.tree.TypesItem.TheVariants as item;
ghost use Rattle.sbe_types.specs.declared.tree.Schema.{Schema};
ghost use Rattle.schema_rules.specs.Chains.{is_endless};
ghost use Rattle.schema_rules.specs.Checked.{checked_of};
ghost use Rattle.schema_rules.specs.Resolved.{resolved};
ghost use Rattle.schema_laws.specs.Questions.{questions, check_by};
ghost use Rattle.schema_laws.specs.Cycles.{MeetsTwice};

/// A declared composite is endless exactly if a chain of composites that begins at it reaches one of them a second
/// time.
pub fn endless_is_to_meet_twice()
    ensures { (types : List TypesItem) (k : ℕ) (c : CompositeEl) → slice_get types k ≡ Some (item.Composite c)
        → (is_endless types c ≡ true) ↔ MeetsTwice types k c }
{}

/// The answer for a schema is the first broken rule of all that apply to it, or the checked schema if none is broken.
pub fn first_broken_rule_is_the_answer()
    ensures { (schema : Schema) → checked_of schema ≡ check_by (questions schema) (resolved schema) }
{}
