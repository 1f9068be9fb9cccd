ghost use Rattle.std.specs.Prelude.{◌≡◌, ℕ, ◌≤◌, ◌<◌, ◌+◌, ◌^◌, length, flat_map, slice_get, Some, IfSome};
ghost use Rattle.std.specs.Option.{option_map, IsSome};
ghost use Rattle.sbe_types.specs.declared.limits.TheConstants.{PART_LIMIT};
ghost use Rattle.sbe_types.specs.declared.schema.Group.{out-Group};
ghost use Rattle.sbe_types.specs.declared.schema.Level.{out-Level};
ghost use Rattle.sbe_types.specs.Places.{field_place};
ghost use Rattle.sbe_wire.specs.Faults.{message_named};
ghost use Rattle.sbe_wire.specs.Versions.{floor};
ghost use Rattle.schema_facts.specs.IsChecked.{IsChecked};
ghost use Rattle.schema_facts.specs.Levels.{all_nodes, fields_at, groups_at, parts_at, level_at, root_of, nodes_of, group_node, Stands};
ghost use Rattle.layout_tables.specs.Parts.{all_parts, dim_at, parts_in_all, Numbered, PartStands};
ghost use Rattle.layout_tables.specs.Rowed.{HeaderIs, RowFor};
ghost use Rattle.layout_tables.specs.Tables.{AreTables};

use crate::rows::{HeaderRow, LevelRow, PartPlace, Tables, floor_of};
use sbe_types::{Group, Header, Level, Order, WireSchema};
use std::marker::Model;

/// The tables of a checked schema: where each part is. Contracts see it as the schema.
///
/// Levels are numbered from 0 in the schema's order: a message's root directly precedes the levels of its groups, and a
/// group's level directly precedes those of its own groups. A group is identified by the number of its entries' level.
/// Data parts are numbered from 0 over the whole schema, level by level in that order.
#[derive(Drop)]
pub struct Layout {
    schema: WireSchema,
    tables: Tables,
}

impl Model for Layout {
    ghost use Rattle.sbe_types.specs.declared.schema.WireSchema.{WireSchema};
    ghost use Rattle.sbe_types.specs.contracts.kind.Kind as kinds;
    ghost use Rattle.sbe_types.specs.contracts.schema.Level as trees;
    ghost use Rattle.std.specs.Coded.{codes};

    ghost Value = { WireSchema };

    ghost coded = { Prim.hlevel (codes, kinds.the_row.coded, trees.the_row.coded) };

    ghost use Rattle.layout_tables.specs.Tables.{AreTables};

    ghost view = { λ layout. layout.schema };

    ghost invariant = { λ layout. AreTables layout.schema layout.tables };
}

impl Layout {
    /// The schema itself, which is checked.
    pub fn schema(&self) -> &WireSchema
        ensures schema { result.now ≡ self.now }
        ensures order { IsChecked self.now }
    {
        &self.schema
    }

    /// How many levels there are.
    pub fn levels(&self) -> usize
        ensures { result ≡ length (all_nodes self.now) }
    {
        self.tables.levels.len()
    }

    /// The number of the first message with this id, or `None` exactly if no message has it.
    pub fn template(&self, id: u32) -> Option<usize>
        ensures { result ≡ option_map (λ m. m.0) (message_named 0 id self.now.messages) }
    {
        match self.guess(id) {
            Some(number) => Some(number),
            None => self.tables.ids.get(&id).copied(),
        }
    }

    /// The same, if the ids of the messages follow one another from the first one on. `None` is inconclusive.
    #[inline(always)]
    #[tactic(auto, using(crate::proofs::Told::guessed))]
    fn guess(&self, id: u32) -> Option<usize>
        ensures { IfSome result (λ n. option_map (λ m. m.0) (message_named 0 id self.now.messages) ≡ Some n) }
    {
        let first = self.schema().messages.as_slice().first()?;
        let number = id.checked_sub(first.id)? as usize;
        if number < self.templates() && self.message(number).id == id {
            Some(number)
        } else {
            None
        }
    }

    /// How many messages the schema has.
    pub fn templates(&self) -> usize
        ensures { result ≡ length self.now.messages }
    {
        self.schema.messages.len()
    }

    /// The level of a message's root. Requires a template in range.
    #[tactic(auto, using(crate::proofs::Told::roots_within, crate::proofs::Told::root_told))]
    pub fn root(&self, template: usize) -> usize
        requires { template < length self.now.messages }
        ensures { result ≡ root_of self.now template }
    {
        self.tables.roots[template]
    }

    /// A message's root, as the schema has it. Requires a template in range.
    pub fn message(&self, template: usize) -> &Level
        requires { template < length self.now.messages }
        ensures { slice_get self.now.messages template ≡ Some result.now }
    {
        self.schema.messages.at(template)
    }

    /// The id of a message. Requires a template in range.
    pub fn template_id(&self, template: usize) -> u32
        requires { template < length self.now.messages }
        ensures { option_map (λ m. (out-Level m).id) (slice_get self.now.messages template) ≡ Some result }
    {
        self.message(template).id
    }

    /// How many data parts the schema has.
    #[tactic(auto, using(crate::proofs::DataParts::places_all))]
    pub fn data_parts(&self) -> usize
        ensures { result ≡ length (all_parts self.now) }
    {
        self.tables.places.len()
    }

    /// The row of a level. Requires a level in range.
    pub fn row(&self, level: usize) -> &LevelRow
        requires { level < length (all_nodes self.now) }
        ensures { RowFor self.now level result.now }
    {
        &self.tables.levels[level]
    }

    /// A level, as the schema has it. Requires a level in range.
    #[tactic(auto, using(crate::proofs::Finds::root_found, crate::proofs::Finds::group_found))]
    pub fn level(&self, n: usize) -> &Level
        requires { n < length (all_nodes self.now) }
        ensures { level_at self.now n ≡ Some result.now }
    {
        let template = self.row(n).template;
        let root = self.message(template);
        let first = self.root(template);
        if n <= first {
            root
        } else {
            level_of(group_in(self, root.groups.as_slice(), template, first + 1, n))
        }
    }

    /// The location of data part `part` of the schema. Requires a part in range.
    pub fn part_place(&self, part: usize) -> PartPlace
        requires { part < length (all_parts self.now) }
        ensures { PartStands self.now part result }
    {
        self.tables.places[part]
    }

    /// How many data parts precede those of a level. Requires a level in range.
    pub(crate) fn first_part(&self, level: usize) -> usize
        requires { level < length (all_nodes self.now) }
        ensures { (i : ℕ) → i < length (parts_at self.now level) → Numbered self.now level i result }
    {
        self.tables.firsts[level]
    }

    /// How many groups and data parts a level has, which are few. Requires a level in range.
    #[tactic(auto, using(crate::proofs::Told::groups_there, crate::proofs::Told::parts_there))]
    pub(crate) fn few_parts(&self, level: usize) -> (usize, usize)
        requires { level < length (all_nodes self.now) }
        ensures are { result ≡ (length (groups_at self.now level), length (parts_at self.now level)) }
        ensures few { parts_in_all self.now level ≤ PART_LIMIT }
        ensures levels { length (all_nodes self.now) < 2 ^ 64 }
    {
        let _levels = self.tables.levels.len();
        let row = self.row(level);
        (row.groups, row.parts.len())
    }

    /// The group of a level's entries. Requires the level of a group.
    #[tactic(auto, using(crate::proofs::Finds::group_found, crate::proofs::GroupWalk::dim_found))]
    pub(crate) fn group_of(&self, n: usize) -> &Group
        requires { IsSome (dim_at self.now n) }
        ensures dim { dim_at self.now n ≡ Some (out-Group result.now).dim }
        ensures level { level_at self.now n ≡ Some (out-Group result.now).level }
    {
        let template = self.row(n).template;
        let root = self.message(template);
        let first = self.root(template);
        group_in(self, root.groups.as_slice(), template, first + 1, n)
    }

    /// How many fields, groups and data parts a level has. Requires a level in range.
    #[tactic(auto, using(crate::proofs::Told::fields_there, crate::proofs::Told::groups_there, crate::proofs::Told::parts_there))]
    pub fn counts(&self, level: usize) -> (usize, usize, usize)
        requires { level < length (all_nodes self.now) }
        ensures { result ≡ (length (fields_at self.now level), length (groups_at self.now level), length (parts_at self.now level)) }
    {
        let row = self.row(level);
        (row.fields.len(), row.groups, row.parts.len())
    }

    /// The block length that is written, in bytes: the declared one, or the computed one. Requires a level in range.
    #[tactic(auto, using(crate::proofs::Told::block_told))]
    pub fn block(&self, level: usize) -> u32
        requires { level < length (all_nodes self.now) }
        ensures { option_map (λ l. (out-Level l).block_length) (level_at self.now level) ≡ Some result }
    {
        self.row(level).block
    }

    /// The first version that has field `i` of a level on the wire. Requires both in range.
    #[tactic(auto, using(crate::proofs::Told::fields_there, crate::proofs::Told::since_at))]
    pub fn since(&self, level: usize, i: usize) -> u32
        requires level { level < length (all_nodes self.now) }
        requires field { i < length (fields_at self.now level) }
        ensures { option_map (λ f. f.since) (slice_get (fields_at self.now level) i) ≡ Some result }
    {
        self.row(level).fields[i].since
    }

    /// The offset of field `i` of a level from its block's first byte (SBE 1.0, offset). Requires a level in range, and
    /// in it a field in range that isn't a constant.
    #[tactic(auto, using(crate::proofs::Told::place_within, crate::proofs::Told::place_at))]
    pub fn place(&self, level: usize, i: usize) -> u32
        requires level { level < length (all_nodes self.now) }
        requires field { IsSome (field_place 0 (fields_at self.now level) i) }
        ensures { field_place 0 (fields_at self.now level) i ≡ Some result }
    {
        self.row(level).fields[i].place
    }

    /// The end of the last field of a level that the version has and that isn't a constant, or 0: a block has at least
    /// that many bytes. Requires a level in range.
    #[tactic(auto, using(crate::proofs::Told::floor_told))]
    pub fn floor(&self, level: usize, version: u32) -> u32
        requires { level < length (all_nodes self.now) }
        ensures { result ≡ floor version (fields_at self.now level) }
    {
        let row = self.row(level);
        if version >= row.newest {
            row.floor
        } else {
            floor_of(version, row.fields.as_slice())
        }
    }

    /// The header, as the schema has it.
    pub fn header(&self) -> &Header
        ensures { result.now ≡ self.now.header }
    {
        &self.schema.header
    }

    /// The header's row: its width, and the offsets of its numbers.
    pub fn header_row(&self) -> &HeaderRow
        ensures { HeaderIs result.now self.now.header.members }
    {
        &self.tables.header
    }

    /// The byte order of the schema's numbers.
    pub fn order(&self) -> Order
        ensures { result ≡ self.now.order }
    {
        self.schema.order
    }

    /// The schema's id.
    pub fn id(&self) -> u32
        ensures { result ≡ self.now.id }
    {
        self.schema.id
    }

    /// The schema's version.
    pub fn version(&self) -> u32
        ensures { result ≡ self.now.version }
    {
        self.schema.version
    }
}

/// The level of a group's entries.
fn level_of(group: &Group) -> &Level
    ensures { result.now ≡ (out-Group group.now).level }
{
    &group.level
}

/// The group whose entries' level has this number, among groups whose levels begin at `first`.
#[cycle(find)]
fn group_in<'a>(
    layout: &'a Layout,
    groups: &'a [Group],
    template: usize,
    first: usize,
    n: usize,
) -> &'a Group
    requires stands { Stands (all_nodes layout.now) first (flat_map (nodes_of template) groups.now) }
    requires low { first ≤ n }
    requires high { n < first + length (flat_map (nodes_of template) groups.now) }
    ensures { slice_get (all_nodes layout.now) n ≡ Some (group_node template result.now) }
{
    let mut child = first;
    for group in groups {
        if n <= child {
            return group;
        }
        let end = layout.row(child).end;
        if n < end {
            return group_in(
                layout,
                group.level.groups.as_slice(),
                template,
                child + 1,
                n,
            );
        }
        child = end;
    }
    unreachable!()
}

/// The layout of a schema and its tables.
pub fn of_tables(schema: WireSchema, tables: Tables) -> Layout
    requires { AreTables schema tables }
    ensures { result ≡ schema }
{
    Layout { schema, tables }
}
