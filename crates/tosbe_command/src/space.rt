ghost use Rattle.std.specs.Prelude.{◌≡◌, IfOk};

use line_draft::BodyDraft;
use lists::NoMem;
use printers::Chunk;
use std::alloc::Global;
use tagvalue_codec::FieldTable;
use text_bodies::JudgeSpace;
use typed_writer::FrameBuf;

/// The most bytes of a text whose body is drafted. A longer one takes the general path.
const DRAFTED_TEXT: usize = 32_768;

/// The working memory for the replies to frames. It is lent from frame to frame.
#[derive(Drop)]
pub(crate) struct MessageSpace {
    pub(crate) alloc: Global,
    /// The fields of a text.
    pub(crate) table: FieldTable,
    /// The template of the last text.
    pub(crate) template: usize,
    /// The body that a text seems to have.
    pub(crate) draft: BodyDraft,
    /// What that body is judged with.
    pub(crate) judging: JudgeSpace,
    /// The body of its message.
    pub(crate) buffer: FrameBuf,
    /// What lines are printed through.
    pub(crate) chunk: Chunk,
}

impl MessageSpace {
    /// Allocates memory for the fields of a text, and for bodies of at most `limit` bytes.
    pub(crate) fn new(alloc: Global, limit: usize) -> Result<MessageSpace, NoMem>
        ensures { IfOk result (λ space. space.buffer.limit ≡ limit) }
    {
        let table = FieldTable::new(alloc)?;
        let judging = JudgeSpace::new(alloc, DRAFTED_TEXT)?;
        let buffer = FrameBuf::new(alloc, limit)?;
        Ok(MessageSpace {
            alloc,
            table,
            template: 0,
            draft: BodyDraft::new(),
            judging,
            buffer,
            chunk: Chunk::new(),
        })
    }
}
