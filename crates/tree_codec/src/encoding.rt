ghost use Rattle.std.specs.Prelude.{◌≡◌, [], length, Some, None, IfOk, OnOk, OnErr};
ghost use Rattle.sbe_wire.specs.Canonical.{canonical};
ghost use Rattle.sbe_wire.specs.Misfit.{misfit, refusal_of};
ghost use Rattle.body_walk.specs.inner.Ready.{IsReadySchema};
ghost use Rattle.tree_codec.specs.Sized.{sized};

use crate::fills::fill_block;
use crate::puts::put_tail;
use crate::sizing::{EncodeErr, body_size};
use layout_tables::Layout;
use sbe_types::Msg;
use typed_writer::FrameBuf;

/// Writes the canonical body of a message, replacing the contents of the buffer, and returns its length in bytes (SBE
/// 1.0, "Message structure"). Allocates nothing.
///
/// # Errors
///
/// The first misfit, exactly if the message has no canonical body within the buffer's limit. The buffer is then empty.
#[tactic(auto, using(body_walk::proofs::ReadyTold::ready_schema))]
pub fn encode(layout: &Layout, msg: &Msg, buf: &mut FrameBuf) -> Result<usize, EncodeErr>
    ensures told { misfit layout.now msg.now buf.old.limit ≡ refusal_of (sized result) }
    ensures written { OnOk result (canonical layout.now msg.now ≡ Some buf.new.bytes) }
    ensures length { IfOk result (λ n. n ≡ length buf.new.bytes) }
    ensures emptied { OnErr result (buf.new.bytes ≡ []) }
    ensures limit { buf.new.limit ≡ buf.old.limit }
{
    let _schema = layout.schema();
    match body_size(layout, msg, buf.limit()) {
        Ok(_) => Ok(put_message(layout, msg, buf)),
        Err(e) => {
            buf.clear();
            Err(e)
        }
    }
}

/// Writes a message that fits, and returns its length in bytes.
fn put_message(layout: &Layout, msg: &Msg, buf: &mut FrameBuf) -> usize
    requires schema { IsReadySchema layout.now }
    requires fits { misfit layout.now msg.now buf.old.limit ≡ None }
    ensures written { canonical layout.now msg.now ≡ Some buf.new.bytes }
    ensures length { result ≡ length buf.new.bytes }
    ensures limit { buf.new.limit ≡ buf.old.limit }
{
    let level = layout.message(msg.template);
    match buf.begin(layout, msg.template) {
        Ok(mut fields) => {
            fill_block(layout, level, &msg.block, fields.buf);
            match fields.buf.done(layout) {
                Ok(mut tail) => {
                    put_tail(layout, level, &msg.block, tail.buf);
                    tail.finish()
                }
                Err(_) => unreachable!(),
            }
        }
        Err(_) => unreachable!(),
    }
}
