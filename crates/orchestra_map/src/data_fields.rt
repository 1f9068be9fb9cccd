ghost use Rattle.std.specs.Prelude.{◌≡◌, filter_map, IfOk};
ghost use Rattle.std.specs.List.{list_any};
ghost use Rattle.map_types.specs.Trees.{members_of};
ghost use Rattle.map_members.specs.Lent.{lent_members};
ghost use Rattle.orchestra_map.specs.DataFields.{data_pair, hides_data, pairs_of};

use lists::NoMem;
use map_members::members_in;
use map_types::{CodeSetEl, FieldEl, Repository};
use std::alloc::Global;
use tagvalue_codec::{DataTags, Pair};

/// The pairs of a length tag and a data tag of a mapping: its fields of type `data` that have a `lengthId`.
///
/// # Errors
///
/// If memory runs out.
pub fn data_tags(alloc: Global, repository: &Repository) -> Result<DataTags, NoMem>
    ensures { IfOk result (λ tags. tags ≡ pairs_of (members_of repository.now)) }
{
    let code_sets = members_in::<CodeSetEl>(alloc, repository.children.as_slice())?;
    let fields = members_in::<FieldEl>(alloc, repository.children.as_slice())?;
    let hidden = is_data_hidden(code_sets.as_slice());
    tags_in(alloc, hidden, fields.as_slice())
}

/// Whether a code set has the name of the datatype `data`.
fn is_data_hidden(code_sets: &[&CodeSetEl]) -> bool
    ensures { result ≡ list_any hides_data (lent_members code_sets.now) }
{
    for code_set in code_sets {
        if hides_data(code_set) {
            return true;
        }
    }
    false
}

fn hides_data(code_set: &CodeSetEl) -> bool
    ensures { result ≡ hides_data code_set.now }
{
    code_set.name.as_slice() == "data".as_bytes()
}

/// The pairs of these fields.
fn tags_in(alloc: Global, hidden: bool, fields: &[&FieldEl]) -> Result<DataTags, NoMem>
    ensures { IfOk result (λ tags. tags ≡ filter_map (data_pair hidden) (lent_members fields.now)) }
{
    let mut tags = DataTags::new(alloc)?;
    for field in fields {
        if let Some(pair) = data_pair(hidden, field) {
            tags.add(pair.length_tag, pair.tag)?;
        }
    }
    Ok(tags)
}

fn data_pair(hidden: bool, field: &FieldEl) -> Option<Pair>
    ensures { result ≡ data_pair hidden field.now }
{
    if hidden || field.type_name.as_slice() != "data".as_bytes() {
        return None;
    }
    match field.length_id {
        None => None,
        Some(length_tag) => Some(Pair {
            length_tag,
            tag: field.id,
        }),
    }
}
