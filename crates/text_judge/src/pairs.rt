ghost use Rattle.std.specs.Prelude.{◌≡◌, true, IfOk};
ghost use Rattle.std.specs.List.{AllByRecursion};
ghost use Rattle.map_types.specs.Trees.{members_of};
ghost use Rattle.orchestra_map.specs.DataFields.{pairs_of};
ghost use Rattle.tagvalue_codec.specs.Fields.{IsTag};
ghost use Rattle.tagvalue_codec.specs.Texts.{is_locked};
ghost use Rattle.same_texts.specs.Follow.{IsOwnPair};
ghost use Rattle.text_judge.specs.OwnPairs.{HasOwnPair, HaveOwnPairs};

use lists::NoMem;
use map_members::members_in;
use map_types::{FieldEl, Repository};
use std::alloc::Global;
use tagvalue_codec::{DataTags, Pair, Role};

/// Whether each length field of a mapping belongs to one data field, with tags of one to nine digits, and has no place of its own
/// in a text. Requires the mapping's pairs of tags; with others, nothing is said. `false` is inconclusive.
///
/// # Errors
///
/// If memory runs out.
pub(crate) fn are_own_pairs(
    alloc: Global,
    repository: &Repository,
    tags: &DataTags,
) -> Result<bool, NoMem>
    ensures { IfOk result (λ own. own ≡ true → tags.now ≡ pairs_of (members_of repository.now) → AllByRecursion (IsOwnPair tags.now) tags.now) }
{
    let fields = members_in::<FieldEl>(alloc, repository.children.as_slice())?;
    Ok(have_own_pairs(fields.as_slice(), tags))
}

/// Whether the length field of each data field belongs to it alone.
fn have_own_pairs(fields: &[&FieldEl], tags: &DataTags) -> bool
    ensures { result ≡ true → HaveOwnPairs tags.now fields.now }
{
    for field in fields {
        if !has_own_pair(field, tags) {
            return false;
        }
    }
    true
}

/// The same for one field. True if it has no length field.
fn has_own_pair(field: &FieldEl, tags: &DataTags) -> bool
    ensures { result ≡ true → HasOwnPair tags.now field.now }
{
    if field.type_name.as_slice() != "data".as_bytes() {
        return true;
    }
    match field.length_id {
        None => true,
        Some(length_tag) => is_own_pair(
            tags,
            Pair {
                length_tag,
                tag: field.id,
            },
        ),
    }
}

/// The same for a length field and its data field.
fn is_own_pair(tags: &DataTags, pair: Pair) -> bool
    ensures { result ≡ true → IsOwnPair tags.now pair }
{
    if !is_tag(pair.length_tag) || !is_tag(pair.tag) || is_locked(pair.length_tag) {
        return false;
    }
    match tags.role(pair.length_tag) {
        Role::Length(tag) => tag == pair.tag,
        Role::Plain | Role::Data => false,
    }
}

/// Whether a tag has one to nine digits.
fn is_tag(tag: u32) -> bool
    ensures { result ≡ true → IsTag tag }
{
    0 < tag && tag <= 999_999_999
}

/// Whether a tag has its place in a text.
fn is_locked(tag: u32) -> bool
    ensures { result ≡ is_locked tag }
{
    tag == 8 || (tag == 9 || (tag == 10 || tag == 35))
}
