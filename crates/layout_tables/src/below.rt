// What is below a level: its groups and data parts, by number.
ghost use Rattle.std.specs.Prelude.{◌≡◌, ◌<◌, length, slice_get, Some, IsSome};
ghost use Rattle.std.specs.Option.{option_map};
ghost use Rattle.sbe_types.specs.declared.schema.Group.{out-Group};
ghost use Rattle.sbe_types.specs.declared.schema.Level.{out-Level};
ghost use Rattle.schema_facts.specs.Levels.{all_nodes, groups_at, parts_at, level_at};
ghost use Rattle.layout_tables.specs.Parts.{all_parts, dim_at, group_number, part_number};
ghost use Rattle.layout_tables.specs.Rowed.{part_row};

use crate::layout::Layout;
use crate::rows::PartRow;
use sbe_types::{Leaf, MemberList};

impl Layout {
    /// The number of the level of a level's group `i`. Requires both in range.
    pub fn group(&self, level: usize, i: usize) -> usize
        requires level { level < length (all_nodes self.now) }
        requires group { i < length (groups_at self.now level) }
        ensures within { result < length (all_nodes self.now) }
        ensures some { IsSome (dim_at self.now result) }
        ensures number { result ≡ group_number self.now level i }
        ensures level { level_at self.now result ≡ option_map (λ g. (out-Group g).level) (slice_get (groups_at self.now level) i) }
        ensures dim { dim_at self.now result ≡ option_map (λ g. (out-Group g).dim) (slice_get (groups_at self.now level) i) }
    {
        let _levels = self.levels();
        let mut child = level + 1;
        for _ in 0..i {
            child = self.row(child).end;
        }
        child
    }

    /// The first version that has a group on the wire, by the number of its level. Requires a level in range.
    #[tactic(auto, using(crate::proofs::Told::level_since))]
    pub fn group_since(&self, group: usize) -> u32
        requires { group < length (all_nodes self.now) }
        ensures { option_map (λ l. (out-Level l).since) (level_at self.now group) ≡ Some result }
    {
        self.row(group).since
    }

    /// The members of a group's dimension, by the number of its level. Requires the level of a group.
    pub fn dim(&self, group: usize) -> &MemberList
        requires { IsSome (dim_at self.now group) }
        ensures { dim_at self.now group ≡ Some result.now }
    {
        &self.group_of(group).dim
    }

    /// The number of a level's data part `i`, among those of the whole schema. Requires both in range.
    pub fn data(&self, level: usize, i: usize) -> usize
        requires level { level < length (all_nodes self.now) }
        requires part { i < length (parts_at self.now level) }
        ensures within { result < length (all_parts self.now) }
        ensures number { result ≡ part_number self.now level i }
        ensures same { slice_get (all_parts self.now) result ≡ slice_get (parts_at self.now level) i }
    {
        let _parts = self.data_parts();
        self.first_part(level) + i
    }

    /// The first version that has a data part on the wire. Requires a part in range.
    #[tactic(auto, using(crate::proofs::DataParts::row_since))]
    pub fn data_since(&self, part: usize) -> u32
        requires { part < length (all_parts self.now) }
        ensures { option_map (λ p. p.since) (slice_get (all_parts self.now) part) ≡ Some result }
    {
        self.part_row(part).since
    }

    /// The name of a data part. Requires a part in range.
    #[tactic(auto, using(crate::proofs::DataParts::name_told))]
    pub fn data_name(&self, part: usize) -> &[u8]
        requires { part < length (all_parts self.now) }
        ensures { option_map (λ p. p.name) (slice_get (all_parts self.now) part) ≡ Some result.now }
    {
        let place = self.part_place(part);
        self.parts(place.level as usize)[place.part as usize]
            .name
            .as_slice()
    }

    /// The type of a data part's length. Requires a part in range.
    #[tactic(auto, using(crate::proofs::DataParts::row_length))]
    pub fn length(&self, part: usize) -> &Leaf
        requires { part < length (all_parts self.now) }
        ensures { option_map (λ p. p.length) (slice_get (all_parts self.now) part) ≡ Some result.now }
    {
        &self.part_row(part).length
    }

    /// The row of a data part. Requires a part in range.
    pub fn part_row(&self, part: usize) -> &PartRow
        requires { part < length (all_parts self.now) }
        ensures { option_map part_row (slice_get (all_parts self.now) part) ≡ Some result.now }
    {
        let place = self.part_place(part);
        &self.row(place.level as usize).parts[place.part as usize]
    }
}
