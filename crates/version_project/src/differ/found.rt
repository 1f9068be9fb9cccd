// A difference, and the path to it.
ghost use Rattle.std.specs.Prelude.{◌≡◌, IfOk, Some};
ghost use Rattle.version_laws.specs.Differ.{differs, in_part};

use lists::{NoMem, Text};
use std::alloc::Global;
use version_laws::{Difference, Reason};

/// A difference at the part with this name.
pub(crate) fn at_part(
    alloc: Global,
    name: &Text,
    reason: Reason,
) -> Result<Option<Difference>, NoMem>
    ensures { IfOk result (λ found. found ≡ differs name.now reason) }
{
    Ok(Some(Difference {
        path: Text::from_slice(alloc, name.as_slice())?,
        reason,
    }))
}

/// Puts the name of a part and a dot before the path of a difference inside it.
pub(crate) fn inside(alloc: Global, name: &Text, found: &Difference) -> Result<Difference, NoMem>
    ensures { IfOk result (λ outer. Some outer ≡ in_part name.now (Some found.now)) }
{
    let mut path = Text::from_slice(alloc, name.as_slice())?;
    path.extend(b".")?;
    path.extend(found.path.as_slice())?;
    Ok(Difference {
        path,
        reason: found.reason,
    })
}
