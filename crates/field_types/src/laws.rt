//! Laws of the definitions, stated as functions without a body.

ghost use Rattle.std.specs.Prelude.{◌≡◌, ℕ, List, Ok};
ghost use Rattle.std.specs.List.{AllByRecursion};
ghost use Rattle.map_types.specs.declared.tree.CodeSetEl.{CodeSetEl};
ghost use Rattle.map_types.specs.declared.tree.FieldEl.{FieldEl};
ghost use Rattle.map_types.specs.declared.tree.Repository.{Repository};
ghost use Rattle.map_types.specs.Trees.{members_of};
ghost use Rattle.map_elements.specs.Repositories.{repository_of};
ghost use Rattle.bridge_rules.specs.Bounds.{IsMapped};
ghost use Rattle.bridge_rules.specs.Datatypes.{Datatype};
ghost use Rattle.field_types.specs.FieldTypes.{field_type, datatypes_of, AreShort};

/// The datatype of a field meets what the rules of values require, if each code has 1 to 64 bytes; and each code of a
/// mapping file that was read has.
pub fn datatypes_of_fields_are_mapped()
    ensures field { (sets : List CodeSetEl) (f : FieldEl) → AreShort sets → IsMapped (field_type sets f) }
    ensures table { (sets : List CodeSetEl) (fields : List FieldEl) → AreShort sets
        → AllByRecursion (λ (d : ℕ × Datatype). IsMapped d.1) (datatypes_of sets fields) }
    ensures file { (bytes : List ℕ) (r : Repository) → repository_of bytes ≡ Ok r → AreShort (members_of r).code_sets }
{}
