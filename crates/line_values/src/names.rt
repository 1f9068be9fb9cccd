ghost use Rattle.std.specs.Prelude.{◌≡◌, option_map, true};
ghost use Rattle.json_data.specs.Trees.{members_of};
ghost use Rattle.line_values.specs.Objects.{is_named, first_unknown};
ghost use Rattle.line_values.specs.Keys.{field_names, data_names, group_name, entry_names, message_names};
ghost use Rattle.line_values.specs.Code.{member_list_names, group_list_names, least_of, names_in};

use json_data::{Json, Pair};
use sbe_types::{DataField, Field, Group, Member};
use std::cmp::Ordering;

/// The names that an object's keys may have.
#[derive(Clone, Copy)]
pub enum Names<'a> {
    /// Those of fields.
    Fields(&'a [Field]),
    /// Those of groups.
    Groups(&'a [Group]),
    /// Those of data parts.
    Parts(&'a [DataField]),
    /// Those of a composite's members.
    Members(&'a [Member]),
    /// `data`, `fields` and `groups`.
    Entry,
    /// Those, and `template` and `version`.
    Message,
}

impl Names<'_> {
    /// Whether a key is one of the names.
    pub fn has(&self, key: &[u8]) -> bool
        ensures { result ≡ is_named key.now (names_in self.now) }
    {
        match self {
            Names::Fields(fields) => has_field(fields, key),
            Names::Groups(groups) => has_group(groups, key),
            Names::Parts(parts) => has_part(parts, key),
            Names::Members(members) => has_member(members, key),
            Names::Entry => is_of_entry(key),
            Names::Message => {
                is_of_entry(key) || key == "template".as_bytes() || key == "version".as_bytes()
            }
        }
    }
}

/// Whether a key is the name at this position: most keys come in the order of the names.
fn is_in_place(names: &Names<'_>, i: usize, key: &[u8]) -> bool
    ensures { result ≡ true → is_named key.now (names_in names.now) ≡ true }
{
    match names {
        Names::Fields(fields) => is_field_at(fields, i, key),
        Names::Members(members) => is_member_at(members, i, key),
        Names::Entry => is_entry_at(i, key),
        Names::Message => is_message_at(i, key),
        Names::Groups(_) | Names::Parts(_) => false,
    }
}

/// Whether a key is name `i` of an entry.
fn is_entry_at(i: usize, key: &[u8]) -> bool
    ensures { result ≡ true → is_named key.now entry_names ≡ true }
{
    match i {
        0 => key == "data".as_bytes(),
        1 => key == "fields".as_bytes(),
        2 => key == "groups".as_bytes(),
        _ => false,
    }
}

/// Whether a key is name `i` of a message.
fn is_message_at(i: usize, key: &[u8]) -> bool
    ensures { result ≡ true → is_named key.now message_names ≡ true }
{
    match i {
        0 => key == "data".as_bytes(),
        1 => key == "fields".as_bytes(),
        2 => key == "groups".as_bytes(),
        3 => key == "template".as_bytes(),
        4 => key == "version".as_bytes(),
        _ => false,
    }
}

/// Whether a key is one of the names; it is likely to be name `i`.
fn has_near(names: &Names<'_>, i: usize, key: &[u8]) -> bool
    ensures { result ≡ is_named key.now (names_in names.now) }
{
    is_in_place(names, i, key) || names.has(key)
}

/// The name of a group, which is that of its level.
pub fn name_of(group: &Group) -> &[u8]
    ensures { result.now ≡ group_name group.now }
{
    group.level.name.as_slice()
}

#[tactic(auto, using(crate::proofs::NameSteps::field_next))]
fn has_field(fields: &[Field], key: &[u8]) -> bool
    ensures { result ≡ is_named key.now (field_names fields.now) }
{
    for field in fields {
        if key == field.name.as_slice() {
            return true;
        }
    }
    false
}

/// Whether a key is the name of field `i`.
fn is_field_at(fields: &[Field], i: usize, key: &[u8]) -> bool
    ensures { result ≡ true → is_named key.now (field_names fields.now) ≡ true }
{
    i < fields.len() && key == fields[i].name.as_slice()
}

/// Whether a key is the name of member `i`.
fn is_member_at(members: &[Member], i: usize, key: &[u8]) -> bool
    ensures { result ≡ true → is_named key.now (member_list_names members.now) ≡ true }
{
    i < members.len() && key == members[i].name.as_slice()
}

#[tactic(auto, using(crate::proofs::NameSteps::group_next))]
fn has_group(groups: &[Group], key: &[u8]) -> bool
    ensures { result ≡ is_named key.now (group_list_names groups.now) }
{
    for group in groups {
        if key == name_of(group) {
            return true;
        }
    }
    false
}

#[tactic(auto, using(crate::proofs::NameSteps::part_next))]
fn has_part(parts: &[DataField], key: &[u8]) -> bool
    ensures { result ≡ is_named key.now (data_names parts.now) }
{
    for part in parts {
        if key == part.name.as_slice() {
            return true;
        }
    }
    false
}

#[tactic(auto, using(crate::proofs::NameSteps::member_next))]
fn has_member(members: &[Member], key: &[u8]) -> bool
    ensures { result ≡ is_named key.now (member_list_names members.now) }
{
    for member in members {
        if key == member.name.as_slice() {
            return true;
        }
    }
    false
}

fn is_of_entry(key: &[u8]) -> bool
    ensures { result ≡ is_named key.now entry_names }
{
    key == "data".as_bytes() || key == "fields".as_bytes() || key == "groups".as_bytes()
}

/// The lesser, by bytes, of a key and one that was found before.
fn least_of<'a>(found: Option<&'a str>, key: &'a str) -> &'a str
    ensures { result.now ≡ least_of (option_map (λ s. s.now) found.entry) key.now }
{
    match found {
        None => key,
        Some(found) => match found.as_bytes().cmp(key.as_bytes()) {
            Ordering::Less => found,
            Ordering::Equal | Ordering::Greater => key,
        },
    }
}

/// The least key that isn't one of the names.
#[tactic(auto, using(crate::proofs::Unknown::unknown_there))]
pub fn unknown<'a>(members: &[Pair<'a>], names: &Names<'_>) -> Option<&'a str>
    ensures { option_map (λ s. s.now) result ≡ first_unknown (names_in names.now) (members_of members.now) }
{
    let mut least = None;
    for (i, (key, _)) in members.iter().enumerate() {
        if !has_near(names, i, key.as_bytes()) {
            least = Some(least_of(least, key));
        }
    }
    least
}
