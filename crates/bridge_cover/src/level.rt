ghost use Rattle.std.specs.Prelude.{◌≡◌, ◌==◌, ◌∷◌, ◌&&◌, ◌||◌, [], false, ℕ, List, IfOk, OnOk, MatchOption};
ghost use Rattle.std.specs.List.{list_any};
ghost use Rattle.reference_graph.specs.Expansion.{Structure};
ghost use Rattle.structure_rows.specs.Rows.{rows_of};
ghost use Rattle.bridge_rules.specs.Table.{data_rule, rule_of};
ghost use Rattle.bridge_terms.specs.Plans.{is_in};
ghost use Rattle.bridge_plan.specs.Mappings.{Mapping, datatype_of, delimiter_of, is_plain};
ghost use Rattle.bridge_plan.specs.Covers.{is_covered, is_delimiter, is_free};
ghost use Rattle.bridge_mapping.specs.Tables.{HaveSameTags};
ghost use Rattle.bridge_cover.specs.Kinds.{HasKind};
ghost use Rattle.bridge_cover.specs.Parts.{is_group, IsEntered, Sees};
ghost use Rattle.bridge_cover.specs.Tables.{AreTables};

use crate::tables::Tables;
use bridge_mapping::TagTable;
use bridge_table::{data_rule, field_rule};
use level_places::LevelPlaces;
use lists::NoMem;
use reference_graph::TagSet;
use sbe_types::{DataField, Field, Level};
use std::alloc::Global;
use structure_rows::PlaceRow;

/// What a mapping says about one level of a template: the places of the level's structure, and the tags of the level's
/// parts so far.
#[derive(Drop)]
pub struct LevelMap<'a> {
    pub tables: &'a Tables<'a>,
    places: LevelPlaces<'a>,
    before: TagSet,
}

impl<'a> LevelMap<'a> {
    /// A level of the structure with these rows, before its first part.
    pub fn new(
        alloc: Global,
        tables: &'a Tables<'a>,
        rows: &'a [PlaceRow],
    ) -> Result<LevelMap<'a>, NoMem>
        ensures { IfOk result (λ here. (m : Mapping) (s : Structure) → AreTables m tables.now → rows.now ≡ rows_of s → Sees m s [] here) }
    {
        let places = LevelPlaces::new(alloc, rows)?;
        let before = TagSet::new(alloc);
        Ok(LevelMap {
            tables,
            places,
            before,
        })
    }

    /// Records that a part with this tag was passed.
    pub fn pass(&mut self, tag: u32) -> Result<(), NoMem>
        ensures { OnOk result ((m : Mapping) (s : Structure) (before : List ℕ) → Sees m s before self.old → Sees m s (tag ∷ before) self.new) }
    {
        let _new = self.before.insert(Some(tag))?;
        Ok(())
    }

    /// Whether a field has a place of its own, which is that of a field, and a rule for its datatype.
    pub fn covers_field(&self, alloc: Global, field: &Field) -> Result<bool, NoMem>
        requires order { HasKind field.now }
        ensures { IfOk result (λ yes. (m : Mapping) (s : Structure) (before : List ℕ) → Sees m s before self.now
            → yes ≡ is_covered m s before field.now.id (rule_of field.now.kind (datatype_of m field.now.id))) }
    {
        if !self.has_place(field.id) {
            return Ok(false);
        }
        let meant = self.tables.datatypes.datatype(field.id);
        let rule = field_rule(alloc, &field.kind, meant)?;
        Ok(rule.is_some())
    }

    /// The same for data.
    pub fn covers_data(&self, part: &DataField) -> bool
        ensures { (m : Mapping) (s : Structure) (before : List ℕ) → Sees m s before self.now
            → result ≡ is_covered m s before part.now.id (data_rule part.now (datatype_of m part.now.id)) }
    {
        if !self.has_place(part.id) {
            return false;
        }
        let meant = self.tables.datatypes.datatype(part.id);
        data_rule(part, meant).is_some()
    }

    /// The rows of the entries of a template's group, if the group has a place of its own, which is that of a group
    /// whose delimiter is one of the template's fields.
    pub fn entries(&self, level: &Level) -> Option<&'a [PlaceRow]>
        ensures { (m : Mapping) (s : Structure) (before : List ℕ) → Sees m s before self.now
            → MatchOption result (is_group m s before level.now ≡ false) (λ rows. IsEntered m s before level.now rows.now) }
    {
        let tags = &self.tables.tags;
        let passed = self.before.has(level.id);
        let data = tags.is_data(level.id);
        if !is_free(tags, level.id, either(passed, data)) {
            return None;
        }
        let Some(rows) = self.places.entries(level.id) else {
            return None;
        };
        if !is_delimited(tags, rows, level.fields.as_slice()) {
            return None;
        }
        Some(rows)
    }

    /// Whether a tag belongs to a field, and is free.
    fn has_place(&self, tag: u32) -> bool
        ensures { (m : Mapping) (s : Structure) (before : List ℕ) → Sees m s before self.now
            → result ≡ (is_plain tag s && is_free m before tag) }
    {
        let field = self.places.is_field(tag);
        let free = is_free(&self.tables.tags, tag, self.before.has(tag));
        field && free
    }
}

/// Whether a tag isn't in the header, isn't that of a length field, and isn't taken.
fn is_free(tags: &TagTable, tag: u32, taken: bool) -> bool
    ensures { (m : Mapping) (before : List ℕ) → HaveSameTags tags.now m.lists → taken ≡ is_in tag before → result ≡ is_free m before tag }
{
    let header = tags.is_header(tag);
    let length = tags.is_length(tag);
    !header && (!length && !taken)
}

fn either(one: bool, other: bool) -> bool
    ensures { result ≡ (one || other) }
{
    one || other
}

/// Whether the entries of these rows begin with one of these fields, which isn't a header, length or data field.
fn is_delimited(tags: &TagTable, rows: &[PlaceRow], fields: &[Field]) -> bool
    ensures { (m : Mapping) (s : Structure) → HaveSameTags tags.now m.lists → rows.now ≡ rows_of s
        → result ≡ is_delimiter m fields.now (delimiter_of s) }
{
    match first_field(rows) {
        None => false,
        Some(tag) => {
            let free = is_free(tags, tag, tags.is_data(tag));
            let own = has_field(fields, tag);
            free && own
        }
    }
}

/// The tag of the first row, if it belongs to a field.
fn first_field(rows: &[PlaceRow]) -> Option<u32>
    ensures { (s : Structure) → rows.now ≡ rows_of s → result ≡ delimiter_of s }
{
    if rows.is_empty() {
        return None;
    }
    match rows[0].entries {
        None => Some(rows[0].tag),
        Some(_) => None,
    }
}

/// Whether one of the fields has this tag.
fn has_field(fields: &[Field], tag: u32) -> bool
    ensures { result ≡ list_any (λ f. f.id == tag) fields.now }
{
    fields.iter().any(|field| field.id == tag)
}
