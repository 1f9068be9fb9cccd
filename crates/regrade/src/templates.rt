ghost use Rattle.std.specs.Prelude.{◌≡◌};
ghost use Rattle.std.specs.Option.{option_map};
ghost use Rattle.sbe_wire.specs.Faults.{message_named};

use sbe_types::LevelList;

/// The number of the first message with this id, or `None` exactly if no message has it.
pub(crate) fn template_of(messages: &LevelList, id: u32) -> Option<usize>
    ensures { result ≡ option_map (λ m. m.0) (message_named 0 id messages.now) }
{
    for i in 0..messages.len() {
        if messages.at(i).id == id {
            return Some(i);
        }
    }
    None
}
