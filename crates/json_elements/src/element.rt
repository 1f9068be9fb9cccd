ghost use Rattle.std.specs.Prelude.{◌≡◌, option_map};
ghost use Rattle.std.specs.List.{list_all};
ghost use Rattle.std.specs.Str.{bytes_eq};
ghost use Rattle.serde_json.specs.Data.{object};
ghost use Rattle.serde_json.specs.Find.{get};
ghost use Rattle.json_data.specs.Trees.{data_of, items_of, members_of};
ghost use Rattle.json_elements.specs.Reading.{Gives, GivesAs};
ghost use Rattle.json_elements.specs.Elements.{local_name, lone, content, items_count, no_children, at_most};

use crate::refusal::{Cause, ElementErr, at_child, refuse, refused};
use json_data::{Json, Pair, find};
use std::alloc::Global;

/// The name and the value of an element, which is an object with one key.
#[tactic(auto, using(crate::proofs::Lone::not_object))]
pub fn lone_of<'a>(value: &Json<'a>) -> Option<(&'a str, &'a Json<'a>)>
    ensures { option_map (λ p. (p.0.now, data_of p.1.now)) result ≡ lone (data_of value.now) }
{
    lone_among(value.as_object()?)
}

/// The same, given the members of the object. If its key occurs more than once, the last one counts.
fn lone_among<'a>(members: &'a [Pair<'a>]) -> Option<(&'a str, &'a Json<'a>)>
    ensures { option_map (λ p. (p.0.now, data_of p.1.now)) result ≡ lone (object (members_of members.now)) }
{
    if members.is_empty() {
        return None;
    }
    let first = &members[0];
    let last = &members[members.len() - 1];
    if !all_have_key(members, first.0.as_bytes()) {
        return None;
    }
    Some((without_prefix(first.0), &last.1))
}

fn all_have_key(members: &[Pair<'_>], key: &[u8]) -> bool
    ensures { result ≡ list_all (λ m. bytes_eq m.0.now key.now) members.now }
{
    members.iter().all(|member| has_key(member, key))
}

fn has_key(member: &Pair<'_>, key: &[u8]) -> bool
    ensures { result ≡ bytes_eq member.now.0.now key.now }
{
    member.0.as_bytes() == key
}

/// A name without its prefix, which ends at the first colon.
fn without_prefix(key: &str) -> &str
    ensures { result.now ≡ local_name key.now }
{
    match key.split_once(':') {
        Some((_, name)) => name,
        None => key,
    }
}

/// The children of an element, given its value.
pub fn content_of<'a>(alloc: Global, element: &Json<'a>) -> Result<&'a [Json<'a>], ElementErr>
    ensures { GivesAs (λ s. items_of s.now) result (content (data_of element.now)) }
{
    match element.as_object() {
        None => Err(refused(alloc, Cause::Shape)),
        Some(members) => match find(members, b"content") {
            None => Ok(&[]),
            Some(found) => match found.as_array() {
                None => Err(refused(alloc, Cause::Shape)),
                Some(items) => Ok(items),
            },
        },
    }
}

/// The value of an attribute, which only an object has.
pub(crate) fn member_of<'a>(element: &Json<'a>, key: &str) -> Option<&'a Json<'a>>
    ensures { option_map (λ v. data_of v.now) result ≡ get key.now (data_of element.now) }
{
    match element.as_object() {
        None => None,
        Some(members) => find(members, key.as_bytes()),
    }
}

/// Refuses more than `most` children.
#[tactic(auto, using(crate::proofs::Children::items_seen))]
pub fn limit_children(alloc: Global, items: &[Json<'_>], most: usize) -> Result<(), ElementErr>
    ensures { Gives result (at_most most (items_count (items_of items.now))) }
{
    if items.len() > most {
        return refuse(alloc, Cause::Limit);
    }
    Ok(())
}

/// Refuses any children.
#[tactic(auto, using(crate::proofs::Children::childless, crate::proofs::Children::with_child))]
pub fn refuse_children(alloc: Global, items: &[Json<'_>]) -> Result<(), ElementErr>
    ensures { Gives result (no_children (items_of items.now)) }
{
    if items.is_empty() {
        return Ok(());
    }
    at_child(0, refuse(alloc, Cause::Shape))
}
