ghost use Rattle.std.specs.Prelude.{◌≡◌, IfOk, Some};
ghost use Rattle.std.specs.Option.{IsSome, is_some};
ghost use Rattle.sbe_types.specs.declared.schema.Level.{Level};
ghost use Rattle.sbe_wire.specs.Faults.{message_named};
ghost use Rattle.version_laws.specs.Projected.{projected};

use crate::differ::message_of;
use crate::project_blocks::project_block;
use lists::NoMem;
use sbe_types::{LevelList, Msg, WireSchema};
use std::alloc::Global;

/// The index of the message with this id.
fn number_of(levels: &LevelList, id: u32) -> usize
    requires { IsSome (message_named 0 id levels.now) }
    ensures { (level : Level) × (message_named 0 id levels.now ≡ Some (result, level)) }
{
    match message_of(levels, id) {
        Some(number) => number,
        None => 0,
    }
}

/// Whether there is a message with this id.
fn is_named(levels: &LevelList, id: u32) -> bool
    ensures { result ≡ is_some (message_named 0 id levels.now) }
{
    message_of(levels, id).is_some()
}

/// Whether the older schema has the message's template.
pub(crate) fn is_known(old: &WireSchema, new: &WireSchema, msg: &Msg) -> bool
    ensures { result ≡ is_some (projected old.now new.now msg.now) }
{
    if msg.template >= new.messages.len() {
        return false;
    }
    is_named(&old.messages, new.messages.at(msg.template).id)
}

/// The message as the older schema knows it.
pub(crate) fn projection(
    alloc: Global,
    old: &WireSchema,
    new: &WireSchema,
    msg: &Msg,
) -> Result<Msg, NoMem>
    requires { IsSome (projected old.now new.now msg.now) }
    ensures { IfOk result (λ n. projected old.now new.now msg.now ≡ Some n) }
{
    let level = new.messages.at(msg.template);
    let template = number_of(&old.messages, level.id);
    let block = project_block(alloc, old.version, level, &msg.block)?;
    Ok(Msg {
        template,
        version: msg.version,
        block,
    })
}
