ghost use Rattle.std.specs.Prelude.{◌≡◌, ◌≤◌, ◌*◌, ◌+◌, length, slice_get, Ok, Some, None, IfOk, IfSome, IfNone};
ghost use Rattle.sbe_types.specs.declared.schema.Level.{Level};
ghost use Rattle.sbe_wire.specs.Misfit.{block_shape, misfit, refusal_of, root_taken};
ghost use Rattle.body_walk.specs.inner.Ready.{IsReadySchema};
ghost use Rattle.tree_codec.specs.Rooms.{place_or_misfit};
ghost use Rattle.tree_codec.specs.Sized.{sized, sized_err};
ghost use Rattle.tree_codec.specs.Shapes.{misfit_of};

use crate::first_misfit::FirstMisfit;
use crate::rooms::{Walk, take_block, take_tail};
use crate::shape::shape_block;
use layout_tables::Layout;
use sbe_types::{Block, Level, Msg, Path};
use sbe_wire::NCode;

/// Why a message can't be written: its first misfit. Its shape is checked first, then its parts in wire order.
#[derive(Drop)]
pub struct EncodeErr {
    pub code: NCode,
    /// The path to the part; empty for the message, and for lack of room.
    pub path: Path,
    /// The number or byte that doesn't fit, a length or a number of entries, or the number of bytes needed so far.
    pub detail: i128,
}

/// The size in bytes of the canonical body of a message, which may be at most `limit`.
///
/// # Errors
///
/// The first misfit, exactly if the message has no canonical body of at most `limit` bytes.
#[tactic(auto, using(body_walk::proofs::ReadyTold::ready_schema))]
pub fn body_size(layout: &Layout, msg: &Msg, limit: usize) -> Result<usize, EncodeErr>
    ensures told { misfit layout.now msg.now limit ≡ refusal_of (sized result) }
    ensures size { IfOk result (λ n. (level : Level) → slice_get layout.now.messages msg.now.template ≡ Some level
        → root_taken layout.now limit level msg.now.block ≡ Ok n) }
{
    let _schema = layout.schema();
    let mut unfit = FirstMisfit::new();
    match judge_message(layout, msg, limit, &mut unfit) {
        Some(n) => Ok(n),
        None => Err(refuse(&unfit)),
    }
}

/// The misfit that was found.
fn refuse(unfit: &FirstMisfit) -> EncodeErr
    ensures { sized_err result ≡ misfit_of unfit.now }
{
    EncodeErr {
        code: unfit.code,
        path: unfit.path.to_path(),
        detail: unfit.detail,
    }
}

/// The size of the body in bytes. If it returns `None`, `out` receives the first misfit.
fn judge_message(layout: &Layout, msg: &Msg, limit: usize, out: &mut FirstMisfit) -> Option<usize>
    requires { IsReadySchema layout.now }
    ensures told { misfit layout.now msg.now limit ≡ refusal_of (place_or_misfit result out.new) }
    ensures size { IfSome result (λ n. (level : Level) → slice_get layout.now.messages msg.now.template ≡ Some level
        → root_taken layout.now limit level msg.now.block ≡ Ok n) }
{
    if msg.template >= layout.templates() {
        out.tell(NCode::Shape, 0);
        return None;
    }
    let level = layout.message(msg.template);
    if msg.version != layout.version() {
        out.tell(NCode::Shape, 0);
        return None;
    }
    if !shape_block(level, &msg.block, out) {
        return None;
    }
    take_root(layout, limit, msg.template, level, &msg.block, out)
}

/// Counts the header and the root's block as one step, and then the groups and data.
fn take_root(
    layout: &Layout,
    limit: usize,
    template: usize,
    level: &Level,
    block: &Block,
    out: &mut FirstMisfit,
) -> Option<usize>
    requires schema { IsReadySchema layout.now }
    requires root { slice_get layout.now.messages template ≡ Some level.now }
    requires shape { block_shape level.now block.now ≡ None }
    ensures { place_or_misfit result out.new ≡ root_taken layout.now limit level.now block.now }
{
    let root = layout.root(template);
    let wide = layout.header_row().width as usize;
    let size = wide + level.block_length as usize;
    match take_block(limit, 0, size, &level.fields, &block.fields, out) {
        Some(after) => take_tail(&Walk { layout, limit }, root, level, block, after, out),
        None => None,
    }
}
