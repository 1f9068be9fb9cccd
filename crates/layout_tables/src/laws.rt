//! Laws of the least number of bytes of an entry, and of the offsets and names of parts.

ghost use Rattle.std.specs.Prelude.{◌≡◌, ◌≤◌, ◌<◌, ◌+◌, ℕ, List, Some, length, slice_get, false};
ghost use Rattle.sbe_types.specs.declared.kind.Kind.{Kind};
ghost use Rattle.sbe_types.specs.declared.message.Block.{Block};
ghost use Rattle.sbe_types.specs.declared.message.Msg.{Msg};
ghost use Rattle.sbe_types.specs.declared.schema.Field.{Field};
ghost use Rattle.sbe_types.specs.declared.schema.Level.{Level, out-Level};
ghost use Rattle.sbe_types.specs.declared.schema.WireSchema.{WireSchema};
ghost use Rattle.sbe_types.specs.Places.{field_place, is_const};
ghost use Rattle.sbe_wire.specs.Versions.{form_of};
ghost use Rattle.sbe_wire.specs.declared.mode.Mode.{Mode};
ghost use Rattle.sbe_wire.specs.Lays.{EntryLays, Lays, TailLays};
ghost use Rattle.schema_facts.specs.Counted.{count_in};
ghost use Rattle.schema_facts.specs.Entries.{entry_least};
ghost use Rattle.schema_facts.specs.IsChecked.{IsChecked};
ghost use Rattle.schema_facts.specs.Levels.{fields_at, groups_at, parts_at};
ghost use Rattle.layout_tables.specs.Names.{names_at};
ghost use Rattle.layout_tables.specs.Parts.{parts_in_all};
ghost use Rattle.sbe_types.specs.declared.schema.Group.{out-Group};
ghost use Rattle.std.specs.Option.{option_map, IsSome};

/// No entry that is laid out has fewer bytes than the floor of its block, the dimensions of its groups and the length
/// numbers of its data take.
pub fn no_entry_is_shorter()
    ensures { (mode : Mode) (level : Level) (k : ℕ) (entry : Block) (b : List ℕ)
        → EntryLays (λ e bytes. TailLays mode level e bytes) (form_of mode level) k entry b
        → entry_least mode.version level ≤ length b }
{}

/// A message of a checked schema has at most as many entries in all as its body has bytes.
pub fn no_more_entries_than_bytes()
    ensures { (schema : WireSchema) (m : Msg) (level : Level) (body : List ℕ) → IsChecked schema
        → slice_get schema.messages m.template ≡ Some level → Lays schema m body → count_in level m.block ≤ length body }
{}

/// Each field that isn't a constant has an offset.
pub fn fields_have_places()
    ensures { (fields : List Field) (i : ℕ) (kind : Kind) → option_map (λ f. f.kind) (slice_get fields i) ≡ Some kind
        → is_const kind ≡ false → IsSome (field_place 0 fields i) }
{}

/// The names of a level's parts are those of its fields, then of its groups, then of its data.
pub fn names_are_those_of_the_parts()
    ensures many { (schema : WireSchema) (n : ℕ) → length (names_at schema n) ≡ parts_in_all schema n }
    ensures fields { (schema : WireSchema) (n i : ℕ) → i < length (fields_at schema n)
        → slice_get (names_at schema n) i ≡ option_map (λ f. f.name) (slice_get (fields_at schema n) i) }
    ensures groups { (schema : WireSchema) (n i : ℕ) → i < length (groups_at schema n)
        → slice_get (names_at schema n) (length (fields_at schema n) + i)
        ≡ option_map (λ g. (out-Level (out-Group g).level).name) (slice_get (groups_at schema n) i) }
    ensures data { (schema : WireSchema) (n i : ℕ) → i < length (parts_at schema n)
        → slice_get (names_at schema n) (length (fields_at schema n) + length (groups_at schema n) + i)
        ≡ option_map (λ d. d.name) (slice_get (parts_at schema n) i) }
{}
