//! Laws of the mapping of a file, stated as functions without a body.

ghost use Rattle.std.specs.Prelude.{◌≡◌, ℕ, List, Ok, Some};
ghost use Rattle.map_types.specs.declared.tree.Repository.{Repository};
ghost use Rattle.map_types.specs.Trees.{Members, members_of};
ghost use Rattle.map_elements.specs.Repositories.{repository_of};
ghost use Rattle.map_rules.specs.Rules.{verdict};
ghost use Rattle.reference_graph.specs.Expansion.{Structure};
ghost use Rattle.bridge_plan.specs.Mappings.{structure_for};
ghost use Rattle.bridge_plan.specs.StructureFacts.{IsDistinct};
ghost use Rattle.bridge_plan.specs.CheckedLevels.{HasShortCodes};
ghost use Rattle.bridge_mapping.specs.Mapped.{mapping_of};

/// If the members of a mapping keep their rules, the structure of each message has each tag at one place.
pub fn structures_of_messages_are_distinct()
    ensures { (m : Members) (kind : List ℕ) (s : Structure) → verdict m ≡ Ok tt
        → structure_for (mapping_of m) kind ≡ Some s → IsDistinct s }
{}

/// The codes of a mapping file that was read are short.
pub fn codes_of_mapping_files_are_short()
    ensures { (bytes : List ℕ) (r : Repository) → repository_of bytes ≡ Ok r → HasShortCodes (mapping_of (members_of r)) }
{}
