ghost use Rattle.std.specs.Prelude.{◌≡◌, ◌≤◌, IfOk, Some, length};
ghost use Rattle.vectors.specs.Messages.{generated};

use crate::blocks::draw_block;
use crate::words::words_of;
use lists::NoMem;
use sbe_types::{Msg, WireSchema};
use std::alloc::Global;

/// Message `index` of a schema with a message, for this seed.
pub(crate) fn draw_message(
    alloc: Global,
    schema: &WireSchema,
    seed: u64,
    index: u64,
) -> Result<Msg, NoMem>
    requires { 1 ≤ length schema.now.messages }
    ensures { IfOk result (λ m. generated schema.now seed index ≡ Some m) }
{
    let template = (index % schema.messages.len() as u64) as usize;
    let mut words = words_of(seed, index);
    let block = draw_block(alloc, &mut words, schema.messages.at(template))?;
    Ok(Msg {
        template,
        version: schema.version,
        block,
    })
}
