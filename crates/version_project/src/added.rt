//! The first added group or data that an older reader can't skip.
ghost use Rattle.std.specs.Prelude.{◌≡◌, IfOk, Some};
ghost use Rattle.version_laws.specs.Differ.{group_name};
ghost use Rattle.version_laws.specs.Forward.{below, added_part, added_in, added_below};
ghost use Rattle.version_laws.specs.Forward.{early_part, added_at_root, added_of, added_among, first_added};
ghost use Rattle.version_project.specs.Additions.{text, inside_text, added_each};
ghost use Rattle.version_project.specs.Sought.{namesake};

use crate::differ::message_of;
use crate::known::{has_old_group, has_old_part};
use lists::{List, NoMem, Text};
use sbe_types::{DataField, Group, Level, WireSchema};
use std::alloc::Global;

/// The path of the first group or data added to old's messages that a reader of old can't skip, in new's order.
pub(crate) fn first_added(
    alloc: Global,
    old: &WireSchema,
    new: &WireSchema,
) -> Result<Option<Text>, NoMem>
    ensures { IfOk result (λ path. path ≡ text (first_added old.now new.now)) }
{
    added_among(alloc, old.version, &old.messages, &new.messages)
}

/// The same, for these messages of new.
fn added_among(
    alloc: Global,
    version: u32,
    olds: &List<Level>,
    news: &List<Level>,
) -> Result<Option<Text>, NoMem>
    ensures { IfOk result (λ path. path ≡ text (added_among version olds.now news.now)) }
{
    for i in 0..news.len() {
        if let Some(path) = added_of(alloc, version, olds, news.at(i))? {
            return Ok(Some(path));
        }
    }
    Ok(None)
}

/// The same, for one message of new. If old doesn't have it, nothing counts as added.
fn added_of(
    alloc: Global,
    version: u32,
    olds: &List<Level>,
    new: &Level,
) -> Result<Option<Text>, NoMem>
    ensures { IfOk result (λ path. path ≡ text (added_of version new.now (namesake new.now olds.now))) }
{
    match message_of(olds, new.id) {
        None => Ok(None),
        Some(_) => {
            let path = added_at_root(alloc, version, new)?;
            inside(alloc, &new.name, path)
        }
    }
}

/// The first added group or data of a message that precedes one that old has, or is inside an entry.
fn added_at_root(alloc: Global, version: u32, level: &Level) -> Result<Option<Text>, NoMem>
    ensures { IfOk result (λ path. path ≡ text (added_at_root version level.now)) }
{
    for i in 0..level.groups.len() {
        let group = level.groups.at(i);
        if group.level.since <= version {
            if let Some(path) = added_below(alloc, version, group)? {
                return Ok(Some(path));
            }
        } else if has_old_group(version, &level.groups, i + 1)
            || has_old_part(version, &level.parts, 0)
        {
            return named(alloc, &group.level.name);
        }
    }
    early_part(alloc, version, &level.parts)
}

/// The first added data that precedes one that old has.
fn early_part(alloc: Global, version: u32, parts: &List<DataField>) -> Result<Option<Text>, NoMem>
    ensures { IfOk result (λ path. path ≡ text (early_part version parts.now)) }
{
    for i in 0..parts.len() {
        let part = parts.at(i);
        if part.since > version && has_old_part(version, parts, i + 1) {
            return named(alloc, &part.name);
        }
    }
    Ok(None)
}

/// The first added group or data of an entry.
#[cycle(added)]
fn added_in(alloc: Global, version: u32, level: &Level) -> Result<Option<Text>, NoMem>
    ensures { IfOk result (λ path. path ≡ text (added_in version level.now)) }
{
    if let Some(path) = added_group(alloc, version, &level.groups)? {
        return Ok(Some(path));
    }
    added_part(alloc, version, &level.parts)
}

/// The first of an entry's groups that was added, or the first addition inside them.
#[cycle(added)]
fn added_group(alloc: Global, version: u32, groups: &List<Group>) -> Result<Option<Text>, NoMem>
    ensures { IfOk result (λ path. path ≡ text (added_each version groups.now)) }
{
    for i in 0..groups.len() {
        let group = groups.at(i);
        if group.level.since > version {
            return named(alloc, &group.level.name);
        }
        if let Some(path) = added_below(alloc, version, group)? {
            return Ok(Some(path));
        }
    }
    Ok(None)
}

/// The first added group or data in the entries of a group.
#[cycle(added)]
fn added_below(alloc: Global, version: u32, group: &Group) -> Result<Option<Text>, NoMem>
    ensures { IfOk result (λ path. path ≡ text (below (group_name group.now) (added_below version group.now))) }
{
    let path = added_in(alloc, version, &group.level)?;
    inside(alloc, &group.level.name, path)
}

/// The first of an entry's data that was added.
fn added_part(alloc: Global, version: u32, parts: &List<DataField>) -> Result<Option<Text>, NoMem>
    ensures { IfOk result (λ path. path ≡ text (added_part version parts.now)) }
{
    for i in 0..parts.len() {
        let part = parts.at(i);
        if part.since > version {
            return named(alloc, &part.name);
        }
    }
    Ok(None)
}

/// The path of one name.
fn named(alloc: Global, name: &Text) -> Result<Option<Text>, NoMem>
    ensures { IfOk result (λ path. path ≡ Some name.now) }
{
    Ok(Some(Text::from_slice(alloc, name.as_slice())?))
}

/// A path inside a part with this name: the name, a dot, and the path.
fn inside(alloc: Global, name: &Text, path: Option<Text>) -> Result<Option<Text>, NoMem>
    ensures { IfOk result (λ outer. outer ≡ inside_text name.now path) }
{
    let Some(inner) = path else {
        return Ok(None);
    };
    let mut outer = Text::from_slice(alloc, name.as_slice())?;
    outer.extend(b".")?;
    outer.extend(inner.as_slice())?;
    Ok(Some(outer))
}
