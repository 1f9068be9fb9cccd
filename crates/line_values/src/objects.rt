ghost use Rattle.std.specs.Prelude.{◌≡◌, option_map};
ghost use Rattle.serde_json.specs.Find.{get_member};
ghost use Rattle.json_data.specs.Trees.{data_of, members_of};
ghost use Rattle.line_values.specs.Refusals.{Reading, Gives, GivesAs};
ghost use Rattle.line_values.specs.Objects.{known, members_in, part, at_item};
ghost use Rattle.line_values.specs.Code.{object_members, names_in};

use crate::names::{Names, unknown};
use crate::refusals::{JCode, LineFault, inside, refuse};
use itoa::Buffer;
use json_data::{Json, Pair, find};
use std::alloc::Global;

/// The value under a name in an object. Both may be missing.
pub fn find_in<'v, 'a>(members: Option<&'v [Pair<'a>]>, name: &[u8]) -> Option<&'v Json<'a>>
    ensures { option_map (λ v. data_of v.now) result ≡ get_member name.now (object_members members.entry) }
{
    match members {
        None => None,
        Some(members) => find(members, name),
    }
}

/// Refuses the least key that is none of the names.
pub fn refuse_unknown(
    alloc: Global,
    names: &Names<'_>,
    members: Option<&[Pair<'_>]>,
) -> Result<(), LineFault>
    ensures { Gives result (known (names_in names.now) (object_members members.entry)) }
{
    match members {
        None => Ok(()),
        Some(members) => match unknown(members, names) {
            None => Ok(()),
            Some(key) => refuse(alloc, JCode::UnknownName, key.as_bytes()),
        },
    }
}

/// The object under a key, if it isn't missing.
fn members_at<'v, 'a>(
    alloc: Global,
    key: &str,
    members: Option<&'v [Pair<'a>]>,
) -> Result<Option<&'v [Pair<'a>]>, LineFault>
    ensures { GivesAs object_members result (members_in key.now (get_member key.now (object_members members.entry))) }
{
    let Some(found) = find_in(members, key.as_bytes()) else {
        return Ok(None);
    };
    let Some(inner) = found.as_object() else {
        return refuse(alloc, JCode::Kind, key.as_bytes());
    };
    Ok(Some(inner))
}

/// The object under a key, whose own keys have these names.
pub fn part<'v, 'a>(
    alloc: Global,
    key: &str,
    names: &Names<'_>,
    members: Option<&'v [Pair<'a>]>,
) -> Result<Option<&'v [Pair<'a>]>, LineFault>
    ensures { GivesAs object_members result (part key.now (names_in names.now) (object_members members.entry)) }
{
    let found = members_at(alloc, key, members)?;
    refuse_unknown(alloc, names, found)?;
    Ok(found)
}

/// The result of reading item `i`, as seen from the array.
pub fn at_item<T: Drop>(alloc: Global, i: usize, read: Result<T, LineFault>) -> Result<T, LineFault>
    ensures { (told : Reading T) → Gives read told → Gives result (at_item i told) }
{
    let mut buffer = Buffer::new();
    let i = buffer.format(i as u64);
    inside(
        alloc,
        b"[",
        inside(alloc, i.as_bytes(), inside(alloc, b"]", read)),
    )
}
