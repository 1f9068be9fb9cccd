ghost use Rattle.std.specs.Prelude.{◌≡◌, IfOk, IfErr};
ghost use Rattle.sbe_wire.specs.Lays.{Lays};
ghost use Rattle.flyweight_view.specs.TypedBlocks.{typed_level};
ghost use Rattle.tree_codec.specs.Decoded.{IsRefused};
ghost use Rattle.tree_codec.specs.Trees.{IsWholeBlock};

use crate::blocks::block_tree;
use flyweight_view::{MsgView, Refusal, validate};
use layout_tables::Layout;
use lists::NoMem;
use sbe_types::Msg;
use std::alloc::Global;

/// Why a body has no tree.
#[derive(Drop)]
pub enum DecodeErr {
    /// No message of the schema lies in the body.
    Refused(Refusal),
    /// Out of memory.
    Memory,
}

/// The message that lies in a body, as a tree of its values (SBE 1.0, "Message structure").
///
/// # Errors
///
/// `Refused` exactly if no message of the schema lies in the body, and `Memory` if memory runs out.
pub fn decode(alloc: Global, layout: &Layout, body: &[u8]) -> Result<Msg, DecodeErr>
    ensures lies { IfOk result (λ m. Lays layout.now m body.now) }
    ensures refused { IfErr result (λ e. IsRefused layout.now body.now e) }
{
    match validate(layout, body) {
        Ok(view) => match message_tree(alloc, &view) {
            Ok(message) => Ok(message),
            Err(NoMem) => Err(DecodeErr::Memory),
        },
        Err(refusal) => Err(DecodeErr::Refused(refusal)),
    }
}

/// The tree of a message, built from its view.
fn message_tree(alloc: Global, view: &MsgView<'_>) -> Result<Msg, NoMem>
    requires { IsWholeBlock (typed_level view.now.level view.now.message.block) }
    ensures { IfOk result (λ m. m ≡ view.now.message) }
{
    let block = block_tree(alloc, &view.root())?;
    Ok(Msg {
        template: view.template(),
        version: view.version(),
        block,
    })
}
