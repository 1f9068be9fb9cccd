ghost use Rattle.std.specs.Prelude.{◌≡◌, IfOk};
ghost use Rattle.version_laws.specs.Answer.{compat};

use crate::added::first_added;
use crate::differ::schemas_differ;
use lists::NoMem;
use schema_check::Checked;
use std::alloc::Global;
use version_laws::Compat;

/// Whether readers and writers of an earlier and a later version of a schema understand each other.
///
/// # Errors
///
/// If memory runs out.
pub fn extends(alloc: Global, old: &Checked, new: &Checked) -> Result<Compat, NoMem>
    ensures { IfOk result (λ answer. answer ≡ compat old.now new.now) }
{
    if let Some(found) = schemas_differ(alloc, old.schema(), new.schema())? {
        return Ok(Compat::No(found.path, found.reason));
    }
    match first_added(alloc, old.schema(), new.schema())? {
        None => Ok(Compat::TwoWay),
        Some(path) => Ok(Compat::OneWay(path)),
    }
}
