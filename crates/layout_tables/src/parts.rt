// The parts of a level, taken from the schema.
ghost use Rattle.std.specs.Prelude.{◌≡◌, ◌<◌, length, slice_get, Some};
ghost use Rattle.std.specs.Option.{option_map};
ghost use Rattle.sbe_types.specs.declared.schema.Level.{out-Level};
ghost use Rattle.schema_facts.specs.Levels.{all_nodes, fields_at, groups_at, parts_at, level_at};

use crate::layout::Layout;
use sbe_types::{DataField, Field, Group, Kind};

impl Layout {
    /// The name of a level: the message's, or the group's. Requires a level in range.
    pub fn name(&self, level: usize) -> &[u8]
        requires { level < length (all_nodes self.now) }
        ensures { option_map (λ l. (out-Level l).name) (level_at self.now level) ≡ Some result.now }
    {
        self.level(level).name.as_slice()
    }

    /// The fields of a level, as the schema has them. Requires a level in range.
    #[tactic(auto, using(crate::proofs::Told::fields_of))]
    pub fn fields(&self, level: usize) -> &[Field]
        requires { level < length (all_nodes self.now) }
        ensures { result.now ≡ fields_at self.now level }
    {
        self.level(level).fields.as_slice()
    }

    /// The groups of a level, as the schema has them. Requires a level in range.
    #[tactic(auto, using(crate::proofs::Told::groups_of))]
    pub fn groups(&self, level: usize) -> &[Group]
        requires { level < length (all_nodes self.now) }
        ensures { result.now ≡ groups_at self.now level }
    {
        self.level(level).groups.as_slice()
    }

    /// The data parts of a level, as the schema has them. Requires a level in range.
    #[tactic(auto, using(crate::proofs::Told::parts_of))]
    pub fn parts(&self, level: usize) -> &[DataField]
        requires { level < length (all_nodes self.now) }
        ensures { result.now ≡ parts_at self.now level }
    {
        self.level(level).parts.as_slice()
    }

    /// The name of field `i` of a level. Requires both in range.
    #[tactic(auto, using(crate::proofs::Told::item_of))]
    pub fn field_name(&self, level: usize, i: usize) -> &[u8]
        requires level { level < length (all_nodes self.now) }
        requires field { i < length (fields_at self.now level) }
        ensures { option_map (λ f. f.name) (slice_get (fields_at self.now level) i) ≡ Some result.now }
    {
        self.fields(level)[i].name.as_slice()
    }

    /// The kind of field `i` of a level. Requires both in range.
    #[tactic(auto, using(crate::proofs::Told::item_of))]
    pub fn kind(&self, level: usize, i: usize) -> &Kind
        requires level { level < length (all_nodes self.now) }
        requires field { i < length (fields_at self.now level) }
        ensures { option_map (λ f. f.kind) (slice_get (fields_at self.now level) i) ≡ Some result.now }
    {
        &self.fields(level)[i].kind
    }
}
