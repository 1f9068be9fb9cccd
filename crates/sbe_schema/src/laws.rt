//! Laws of the definitions, stated as functions without a body.

ghost use Rattle.std.specs.Prelude.{◌≡◌, ℕ, List, Ok};
ghost use Rattle.sbe_types.specs.declared.tree.Schema.{Schema};
ghost use Rattle.sbe_types.specs.InForm.{IsInForm};
ghost use Rattle.sbe_schema.specs.Schemas.{schema_of};

/// The tree of a schema file is well-formed: its names, numbers and lists have their forms and are within their limits.
pub fn a_tree_is_in_form()
    ensures { (bytes : List ℕ) (tree : Schema) → schema_of bytes ≡ Ok tree → IsInForm tree }
{}
