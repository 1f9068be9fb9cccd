//! The facts of checked schemas, computed on a worked one.

ghost use Rattle.std.specs.Prelude.{◌≡◌, ℕ, List, [], ◌∷◌, length, codes, Some, pos};
ghost use Rattle.sbe_types.specs.InForm.{IsInForm};
ghost use Rattle.schema_rules.specs.Rows.Trees as tree;
ghost use Rattle.schema_rules.specs.Rows.Schemas.{checked, legs, nest, size16, level, field, leaf, uint16};
ghost use Rattle.sbe_types.specs.declared.kind.Primitive.TheVariants.{U64};
ghost use Rattle.sbe_types.specs.declared.kind.Presence.TheVariants.{Required};
ghost use Rattle.sbe_types.specs.declared.schema.Group.{out-Group};
ghost use Rattle.schema_facts.specs.CheckedLevels.{part_names, groups_deep, NeverFall, TakesByte, HasNames, HasBlock, IsSinceWithin, IsLength};
ghost use Rattle.schema_facts.specs.Entries.{entry_least};
ghost use Rattle.schema_facts.specs.Levels.{all_nodes, node};
ghost use Rattle.schema_facts.specs.IsChecked.{IsChecked};

use schema_rules::worked::a_schema_in_order_is_accepted;

/// A worked tree is well-formed.
pub fn a_worked_tree_is_in_form()
    ensures form { IsInForm tree.in_order }
{}

/// The schema that it stands for has every fact of a checked schema.
pub fn a_worked_schema_is_checked()
    ensures { IsChecked checked }
{
    a_worked_tree_is_in_form();
    a_schema_in_order_is_accepted();
}

/// The definitions, computed on the worked schema and on its nested groups.
pub fn worked_levels_are_computed()
    ensures levels { length (all_nodes checked) ≡ 7 }
    ensures names { part_names (out-Group legs).level ≡ codes "q" ∷ (codes "subs" ∷ (codes "note" ∷ [])) }
    ensures deep { groups_deep nest ≡ 2 }
    ensures least { entry_least 0 (out-Group legs).level ≡ 7 }
    ensures falls { NeverFall 0 (2 ∷ (1 ∷ [])) → ⊥ }
{}

/// Levels that break a rule don't have the facts: entries without bytes, two parts with the same name, a block that
/// ends before its field, a field before its level, and a length number of eight bytes.
pub fn levels_that_break_a_rule_lack_a_fact()
    ensures entries { TakesByte (node 0 (Some size16) (level (codes "g") 1 0 [] [] [])) → ⊥ }
    ensures names { HasNames (level (codes "M") 1 4 (field (codes "a") 1 uint16 ∷ (field (codes "a") 2 uint16 ∷ [])) [] []) → ⊥ }
    ensures block { HasBlock size16 (level (codes "M") 1 1 (field (codes "a") 1 uint16 ∷ []) [] []) → ⊥ }
    ensures before { IsSinceWithin 2 3 1 → ⊥ }
    ensures beyond { IsSinceWithin 0 0 1 → ⊥ }
    ensures length { IsLength (leaf U64 Required (pos 255) (pos 0) (pos 254)) → ⊥ }
{}
