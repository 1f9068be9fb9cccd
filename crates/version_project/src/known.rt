//! Whether the older schema has a part after others.
ghost use Rattle.std.specs.Prelude.{◌≡◌, drop};
ghost use Rattle.std.specs.List.{list_any};
ghost use Rattle.version_laws.specs.Projected.{old_part};
ghost use Rattle.version_project.specs.IsPlain.{old_group};

use lists::List;
use sbe_types::{DataField, Group};

/// Whether the version has one of the data from number `from` on.
pub(crate) fn has_old_part(version: u32, parts: &List<DataField>, from: usize) -> bool
    ensures { result ≡ list_any (old_part version) (drop from parts.now) }
{
    for i in from..parts.len() {
        if parts.at(i).since <= version {
            return true;
        }
    }
    false
}

/// Whether the version has one of the groups from number `from` on.
pub(crate) fn has_old_group(version: u32, groups: &List<Group>, from: usize) -> bool
    ensures { result ≡ list_any (old_group version) (drop from groups.now) }
{
    for i in from..groups.len() {
        if groups.at(i).level.since <= version {
            return true;
        }
    }
    false
}
