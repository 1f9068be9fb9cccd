//! Laws of look-ups by name: in a valid schema no two messages have the same name, and no two parts of a level.

ghost use Rattle.std.specs.Prelude.{◌≡◌, ℕ, Some, slice_get};
ghost use Rattle.sbe_types.specs.declared.schema.DataField.{DataField};
ghost use Rattle.sbe_types.specs.declared.schema.Field.{Field};
ghost use Rattle.sbe_types.specs.declared.schema.Group.{Group, out-Group};
ghost use Rattle.sbe_types.specs.declared.schema.Level.{Level, out-Level};
ghost use Rattle.sbe_types.specs.declared.schema.WireSchema.{WireSchema};
ghost use Rattle.schema_facts.specs.IsChecked.{IsChecked};
ghost use Rattle.schema_facts.specs.Levels.{fields_at, groups_at, parts_at};
ghost use Rattle.layout_names.specs.Names.{template_named, field_named, group_named, data_named};

/// Each message is found by its name.
pub fn messages_are_found_by_their_names()
    ensures { (schema : WireSchema) → IsChecked schema → (t : ℕ) (level : Level) → slice_get schema.messages t ≡ Some level
        → template_named (out-Level level).name schema ≡ Some t }
{}

/// Each field, group and data part of a level is found by its name.
pub fn parts_are_found_by_their_names()
    ensures fields { (schema : WireSchema) → IsChecked schema → (n i : ℕ) (f : Field) → slice_get (fields_at schema n) i ≡ Some f
        → field_named f.name schema n ≡ Some i }
    ensures groups { (schema : WireSchema) → IsChecked schema → (n i : ℕ) (g : Group) → slice_get (groups_at schema n) i ≡ Some g
        → group_named (out-Level (out-Group g).level).name schema n ≡ Some i }
    ensures parts { (schema : WireSchema) → IsChecked schema → (n i : ℕ) (d : DataField) → slice_get (parts_at schema n) i ≡ Some d
        → data_named d.name schema n ≡ Some i }
{}
