// The least number of bytes of an entry.
ghost use Rattle.std.specs.Prelude.{◌≡◌, ℕ, ◌≤◌, ◌<◌, ◌*◌, ◌^◌, length, Some};
ghost use Rattle.std.specs.Option.{option_map, IsSome};
ghost use Rattle.sbe_types.specs.declared.schema.Level.{out-Level};
ghost use Rattle.sbe_types.specs.declared.limits.TheConstants.{PART_LIMIT, PLACE_LIMIT};
ghost use Rattle.schema_facts.specs.Entries.{entry_least, groups_least, parts_least};
ghost use Rattle.schema_facts.specs.Levels.{all_nodes, level_at, groups_at, parts_at};
ghost use Rattle.layout_tables.specs.Parts.{dim_at};
ghost use Rattle.layout_tables.specs.Least.{row_least, part_row_least, part_rows_least};

use crate::layout::Layout;
use crate::rows::{LevelRow, PartRow};

impl Layout {
    /// The least number of bytes of an entry of a level at a version: the floor of its block, the dimensions of its
    /// groups and the length numbers of its data, as far as the version has them. No entry that is laid out has fewer,
    /// and each entry of a group that the version has takes at least one byte. Requires a level in range.
    #[tactic(auto, using(crate::proofs::LeastRows::entry_told, crate::proofs::Small::floor_small))]
    pub fn min_entry(&self, level: usize, version: u32) -> u32
        requires { level < length (all_nodes self.now) }
        ensures least { option_map (entry_least version) (level_at self.now level) ≡ Some result }
        ensures some { (since : ℕ) → IsSome (dim_at self.now level)
            → option_map (λ l. (out-Level l).since) (level_at self.now level) ≡ Some since → since ≤ version → 1 ≤ result }
    {
        let _schema = self.schema();
        let groups = self.groups_least(level, version);
        let parts = self.parts_least(level, version);
        self.floor(level, version) + groups + parts
    }

    /// The bytes of the dimensions of those groups of a level that the version has. Requires a level in range.
    fn groups_least(&self, level: usize, version: u32) -> u32
        requires { level < length (all_nodes self.now) }
        ensures least { result ≡ groups_least version (groups_at self.now level) }
        ensures small { result ≤ PART_LIMIT * PLACE_LIMIT }
    {
        let _schema = self.schema();
        let count = self.few_parts(level).0;
        let mut least = 0u32;
        let mut child = level + 1;
        for _ in 0..count {
            let row = self.row(child);
            least += dim_least(row, version);
            child = row.end;
        }
        least
    }

    /// The bytes of the length numbers of those data parts of a level that the version has. Requires a level in range.
    #[tactic(auto, using(crate::proofs::Told::parts_there, crate::proofs::LeastRows::parts_told))]
    fn parts_least(&self, level: usize, version: u32) -> u32
        requires { level < length (all_nodes self.now) }
        ensures least { result ≡ parts_least version (parts_at self.now level) }
        ensures small { result ≤ PART_LIMIT * 8 }
    {
        let _few = self.few_parts(level);
        lengths_least(self.row(level).parts.as_slice(), version)
    }
}

/// The bytes of a group's dimension, if the version has the group.
fn dim_least(row: &LevelRow, version: u32) -> u32
    ensures { result ≡ row_least version row.now }
{
    match &row.dim {
        Some(dim) if row.since <= version => dim.width,
        _ => 0,
    }
}

/// The bytes of the length numbers of those data parts that the version has.
fn lengths_least(parts: &[PartRow], version: u32) -> u32
    requires { length parts.now ≤ PART_LIMIT }
    ensures least { result ≡ part_rows_least version parts.now }
    ensures small { result ≤ PART_LIMIT * 8 }
{
    let mut least = 0u32;
    for part in parts {
        least += length_least(part, version) as u32;
    }
    least
}

/// The bytes of a data part's length number, if the version has the part.
fn length_least(part: &PartRow, version: u32) -> usize
    ensures least { result ≡ part_row_least version part.now }
    ensures small { result ≤ 8 }
{
    if part.since <= version {
        part.length.prim.width()
    } else {
        0
    }
}
