ghost use Rattle.std.specs.Prelude.{◌≡◌, IfOk};

use flyweight_view::LastRefusal;
use lists::NoMem;
use printers::Chunk;
use std::alloc::Global;
use typed_writer::FrameBuf;

/// The working memory for the answers to frames. It is lent from frame to frame.
#[derive(Drop)]
pub(crate) struct FrameSpace {
    pub(crate) alloc: Global,
    /// The body of a rewritten message.
    pub(crate) buffer: FrameBuf,
    /// The place of the refusal of a body.
    pub(crate) last: LastRefusal,
    /// What frames are printed through.
    pub(crate) chunk: Chunk,
}

impl FrameSpace {
    /// Allocates memory for bodies of at most `limit` bytes.
    pub(crate) fn new(alloc: Global, limit: usize) -> Result<FrameSpace, NoMem>
        ensures { IfOk result (λ space. space.buffer.limit ≡ limit) }
    {
        let buffer = FrameBuf::new(alloc, limit)?;
        Ok(FrameSpace {
            alloc,
            buffer,
            last: LastRefusal::new(),
            chunk: Chunk::new(),
        })
    }
}
