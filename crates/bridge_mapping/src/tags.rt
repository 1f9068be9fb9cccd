ghost use Rattle.std.specs.Prelude.{◌≡◌, map, filter_map, IfOk};
ghost use Rattle.std.specs.List.{list_any};
ghost use Rattle.map_types.specs.Trees.{members_of};
ghost use Rattle.map_members.specs.Lent.{lent_members};
ghost use Rattle.orchestra_map.specs.DataFields.{data_pair, hides_data, pairs_of};
ghost use Rattle.orchestra_map.specs.Headers.{IsKept};
ghost use Rattle.bridge_terms.specs.Plans.{is_in};
ghost use Rattle.bridge_terms.specs.MessageFields.{length_in};
ghost use Rattle.bridge_plan.specs.Covers.{length_tags, data_tags};
ghost use Rattle.bridge_mapping.specs.Mapped.{tag_lists_of};
ghost use Rattle.bridge_mapping.specs.Tables.{HaveSameTags};

use id_tables::IdTable;
use lists::{List, NoMem};
use map_members::members_in;
use map_types::{CodeSetEl, FieldEl, Repository};
use orchestra_map::header_tags;
use reference_graph::TagSet;
use std::alloc::Global;
use std::marker::Model;
use tagvalue_codec::Pair;

/// The tags of a mapping's header, and those of its length fields with their data fields.
#[derive(Drop)]
pub struct TagTable {
    header: TagSet,
    pairs: List<Pair>,
    length_tags: IdTable,
    data_tags: IdTable,
}

impl Model for TagTable {
    ghost use Rattle.std.specs.Prelude.{◌≡◌, map};
    ghost use Rattle.tagvalue_codec.specs.declared.data_tags.Pair.{Pair};
    ghost use Rattle.bridge_terms.specs.Parts.{TagLists};
    ghost use Rattle.bridge_mapping.specs.Mapped.{tags_in};

    ghost Value = { TagLists };

    ghost view = { λ table. record { header = table.header; lengths = map tags_in table.pairs } };

    ghost invariant = { λ table. (table.length_tags ≡ map (λ (p : Pair). p.length_tag) table.pairs)
        × (table.data_tags ≡ map (λ (p : Pair). p.tag) table.pairs) };
}

impl TagTable {
    /// Builds the table of a mapping's tags.
    ///
    /// # Errors
    ///
    /// If memory runs out.
    pub fn new(alloc: Global, repository: &Repository) -> Result<TagTable, NoMem>
        requires { IsKept repository.now }
        ensures { IfOk result (λ table. HaveSameTags table (tag_lists_of (members_of repository.now))) }
    {
        let header = header_tags(alloc, repository)?;
        let pairs = pairs_of(alloc, repository)?;
        let length_tags = IdTable::new(alloc, length_ids(alloc, pairs.as_slice())?)?;
        let data_tags = IdTable::new(alloc, data_ids(alloc, pairs.as_slice())?)?;
        Ok(TagTable {
            header,
            pairs,
            length_tags,
            data_tags,
        })
    }

    /// Whether a tag is one of the header.
    pub fn is_header(&self, tag: u32) -> bool
        ensures { result ≡ is_in tag self.now.header }
    {
        self.header.has(tag)
    }

    /// Whether a tag is that of a length field.
    pub fn is_length(&self, tag: u32) -> bool
        ensures { result ≡ is_in tag (length_tags self.now) }
    {
        self.length_tags.place(tag).is_some()
    }

    /// Whether a tag is that of a data field with a length field.
    pub fn is_data(&self, tag: u32) -> bool
        ensures { result ≡ is_in tag (data_tags self.now) }
    {
        self.data_tags.place(tag).is_some()
    }

    /// The tag of a data field's length field, if it has one.
    pub fn length_of(&self, tag: u32) -> Option<u32>
        ensures { result ≡ length_in tag self.now.lengths }
    {
        match self.data_tags.place(tag) {
            None => None,
            Some(i) => Some(self.pairs.at(i).length_tag),
        }
    }
}

/// The pairs of a length tag and a data tag of a mapping.
fn pairs_of(alloc: Global, repository: &Repository) -> Result<List<Pair>, NoMem>
    ensures { IfOk result (λ pairs. pairs ≡ pairs_of (members_of repository.now)) }
{
    let code_sets = members_in::<CodeSetEl>(alloc, repository.children.as_slice())?;
    let fields = members_in::<FieldEl>(alloc, repository.children.as_slice())?;
    let hidden = is_data_hidden(code_sets.as_slice());
    pairs_in(alloc, hidden, fields.as_slice())
}

/// Whether a code set has the name of the datatype `data`.
fn is_data_hidden(code_sets: &[&CodeSetEl]) -> bool
    ensures { result ≡ list_any hides_data (lent_members code_sets.now) }
{
    for code_set in code_sets {
        if hides_data(code_set) {
            return true;
        }
    }
    false
}

fn hides_data(code_set: &CodeSetEl) -> bool
    ensures { result ≡ hides_data code_set.now }
{
    code_set.name.as_slice() == "data".as_bytes()
}

fn pairs_in(alloc: Global, hidden: bool, fields: &[&FieldEl]) -> Result<List<Pair>, NoMem>
    ensures { IfOk result (λ pairs. pairs ≡ filter_map (data_pair hidden) (lent_members fields.now)) }
{
    let mut pairs = List::new(alloc);
    for field in fields {
        if let Some(pair) = data_pair(hidden, field) {
            pairs.push(pair)?;
        }
    }
    Ok(pairs)
}

fn data_pair(hidden: bool, field: &FieldEl) -> Option<Pair>
    ensures { result ≡ data_pair hidden field.now }
{
    if hidden || field.type_name.as_slice() != "data".as_bytes() {
        return None;
    }
    match field.length_id {
        None => None,
        Some(length_tag) => Some(Pair {
            length_tag,
            tag: field.id,
        }),
    }
}

fn length_ids(alloc: Global, pairs: &[Pair]) -> Result<List<u32>, NoMem>
    ensures { IfOk result (λ tags. tags ≡ map (λ p. p.length_tag) pairs.now) }
{
    let mut tags = List::new(alloc);
    for pair in pairs {
        tags.push(pair.length_tag)?;
    }
    Ok(tags)
}

fn data_ids(alloc: Global, pairs: &[Pair]) -> Result<List<u32>, NoMem>
    ensures { IfOk result (λ tags. tags ≡ map (λ p. p.tag) pairs.now) }
{
    let mut tags = List::new(alloc);
    for pair in pairs {
        tags.push(pair.tag)?;
    }
    Ok(tags)
}
