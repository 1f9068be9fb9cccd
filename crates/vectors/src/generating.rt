ghost use Rattle.std.specs.Prelude.{◌≡◌, ◌≤◌, IfOk, Some, length};
ghost use Rattle.vectors.specs.Messages.{generated};

use crate::messages::draw_message;
use lists::NoMem;
use sbe_types::Msg;
use schema_check::Checked;
use std::alloc::Global;

/// Message `index` of the schema for this seed. The templates take turns. The same schema, seed and index always give
/// the same message. Requires a schema with a message.
///
/// # Errors
///
/// `NoMem` if memory runs out.
pub fn generate(alloc: Global, checked: &Checked, seed: u64, index: u64) -> Result<Msg, NoMem>
    requires { 1 ≤ length checked.now.messages }
    ensures { IfOk result (λ m. generated checked.now seed index ≡ Some m) }
{
    draw_message(alloc, checked.schema(), seed, index)
}
