//! Laws of translations, as functions without a body.

ghost use Rattle.std.specs.Prelude.{◌≡◌, ℕ, List, Ok};
ghost use Rattle.map_types.specs.declared.tree.Repository.{Repository};
ghost use Rattle.map_types.specs.Trees.{members_of};
ghost use Rattle.map_elements.specs.Repositories.{repository_of};
ghost use Rattle.bridge_mapping.specs.Mapped.{mapping_of};
ghost use Rattle.fix_translation.specs.Translations.{HasKinds};

/// Each MsgType of a mapping file that is read may be the value of a field.
pub fn kinds_of_mapping_files()
    ensures { (bytes : List ℕ) (r : Repository) → repository_of bytes ≡ Ok r → HasKinds (mapping_of (members_of r)) }
{}
