ghost use Rattle.std.specs.Prelude.{◌≡◌, ◌↔◌, IsTrue};
ghost use Rattle.version_laws.specs.Plain.{Plain};
ghost use Rattle.version_project.specs.IsPlain.{root_parts_pass, root_is_plain};

use crate::known::{has_old_group, has_old_part};
use crate::plain_entries::{plain_group, plain_part};
use lists::List;
use sbe_types::{Block, DataField, DataVal, Level, Msg, WireSchema};

fn root_parts(version: u32, parts: &List<DataField>, values: &List<DataVal>) -> bool
    ensures { result ≡ root_parts_pass version parts.now values.now }
{
    for (i, part) in parts.as_slice().iter().enumerate() {
        if i >= values.len() {
            return true;
        }
        if !plain_part(version, part, values.at(i)) {
            return !has_old_part(version, parts, i);
        }
    }
    true
}

/// Whether the parts of a root that the version doesn't have come after all those that it has.
fn plain_root(version: u32, level: &Level, block: &Block) -> bool
    ensures { result ≡ root_is_plain version level.now block.now }
{
    for (i, group) in level.groups.as_slice().iter().enumerate() {
        if i >= block.groups.len() {
            return true;
        }
        if !plain_group(version, group, block.groups.at(i)) {
            let after = has_old_part(version, &level.parts, 0);
            return !has_old_group(version, &level.groups, i) && !after;
        }
    }
    root_parts(version, &level.parts, &block.parts)
}

/// Whether no reader of the older schema misreads the message.
pub(crate) fn is_plain(old: &WireSchema, new: &WireSchema, msg: &Msg) -> bool
    ensures { IsTrue result ↔ Plain old.now new.now msg.now }
{
    if msg.template >= new.messages.len() {
        return true;
    }
    plain_root(old.version, new.messages.at(msg.template), &msg.block)
}
