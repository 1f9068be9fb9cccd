ghost use Rattle.std.specs.Prelude.{◌≡◌, ◌↔◌, IsTrue, IfOk, Some};
ghost use Rattle.std.specs.Option.{IsSome, is_some};
ghost use Rattle.version_laws.specs.Plain.{Plain};
ghost use Rattle.version_laws.specs.Projected.{projected};

use crate::plain_messages::is_plain;
use crate::project_messages::{is_known, projection};
use lists::NoMem;
use sbe_types::Msg;
use schema_check::Checked;
use std::alloc::Global;

/// Whether no reader of the older schema misreads a message of the newer one: in its root each group and data that the
/// older one has precedes every other one that is present, and no entry of a group that the older one has contains a
/// group or data that it lacks.
pub fn plain(old: &Checked, new: &Checked, msg: &Msg) -> bool
    ensures { IsTrue result ↔ Plain old.now new.now msg.now }
{
    is_plain(old.schema(), new.schema(), msg)
}

/// Whether the older schema has the template of a message of the newer one: it has a message with the same id.
pub fn knows(old: &Checked, new: &Checked, msg: &Msg) -> bool
    ensures { result ≡ is_some (projected old.now new.now msg.now) }
{
    is_known(old.schema(), new.schema(), msg)
}

/// A message of the newer schema as the older one knows it: the values of the fields, groups and data that the older
/// one has, the template's index in the older one, and the message's version. The older schema must have the template,
/// as [`knows`] reports.
pub fn project(alloc: Global, old: &Checked, new: &Checked, msg: &Msg) -> Result<Msg, NoMem>
    requires known { IsSome (projected old.now new.now msg.now) }
    ensures known { IfOk result (λ it. projected old.now new.now msg.now ≡ Some it) }
{
    projection(alloc, old.schema(), new.schema(), msg)
}
