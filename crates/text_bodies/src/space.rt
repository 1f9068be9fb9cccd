ghost use Rattle.std.specs.Prelude.{◌≤◌};
ghost use Rattle.tagvalue_codec.specs.declared.room.TheConstants.{TEXT_LIMIT};

use flyweight_view::LastRefusal;
use lists::NoMem;
use message_walk::Halt;
use std::alloc::Global;
use tagvalue_codec::FixWriter;

/// What bodies are judged with: the text that a message is written as, and why it has none or the body isn't a message. It is lent
/// from body to body.
#[derive(Drop)]
pub struct JudgeSpace {
    pub(crate) out: FixWriter,
    pub(crate) halt: Halt,
    pub(crate) last: LastRefusal,
}

impl JudgeSpace {
    /// Allocates memory for a text of at most `limit` bytes.
    ///
    /// # Errors
    ///
    /// If memory runs out.
    pub fn new(alloc: Global, limit: usize) -> Result<JudgeSpace, NoMem>
        requires { limit ≤ TEXT_LIMIT }
    {
        Ok(JudgeSpace {
            out: FixWriter::new(alloc, limit)?,
            halt: Halt::new(),
            last: LastRefusal::new(),
        })
    }
}
