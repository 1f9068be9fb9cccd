ghost use Rattle.std.specs.Prelude.{◌≡◌, IfOk};

use json_data::JsonSpace;
use line_draft::BodyDraft;
use lists::NoMem;
use printers::Chunk;
use std::alloc::Global;
use typed_writer::FrameBuf;

/// The memory in which answers to lines are built. It is lent from line to line.
#[derive(Drop)]
pub struct LineSpace {
    /// The body that a line seems to hold.
    pub draft: BodyDraft,
    /// The body of a message.
    pub buffer: FrameBuf,
    /// What reading JSON needs.
    pub json: Box<JsonSpace>,
    /// What frames are printed through.
    pub chunk: Chunk,
}

impl LineSpace {
    /// Allocates memory for bodies of at most `limit` bytes.
    pub fn new(alloc: Global, limit: usize) -> Result<LineSpace, NoMem>
        ensures limit { IfOk result (λ space. space.buffer.limit ≡ limit) }
    {
        let buffer = FrameBuf::new(alloc, limit)?;
        Ok(LineSpace {
            draft: BodyDraft::new(),
            buffer,
            json: Box::new(alloc, JsonSpace::new(alloc))?,
            chunk: Chunk::new(),
        })
    }
}
