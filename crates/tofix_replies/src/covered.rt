//! The reply to a message of a template that the mapping covers.

ghost use Rattle.std.specs.Prelude.{◌≡◌, ◌≤◌, ◌<◌, ◌^◌, ℕ, Some, true, IfOk};
ghost use Rattle.open_framing.specs.declared.head.TheConstants.{HEAD_BYTES};
ghost use Rattle.replies.specs.Drafts.{DeliversDraft};
ghost use Rattle.replies.specs.Outside.{sinks_of};
ghost use Rattle.tagvalue_codec.specs.Drafts.{idle, IsValue};
ghost use Rattle.bridge_terms.specs.Blocks.{values_of};
ghost use Rattle.bridge_terms.specs.Parts.{TagLists};
ghost use Rattle.bridge_terms.specs.Places.{place_fields, places_of};
ghost use Rattle.bridge_terms.specs.Plans.{Plan};
ghost use Rattle.message_walk.specs.Rows.{AreRows, FitsBlock};
ghost use Rattle.fix_messages.specs.Heads.{head_of, IsHeadReady};
ghost use Rattle.fix_messages.specs.Texts.{message_text, text_refusal};
ghost use Rattle.command_steps.specs.Replies.{Wants};
ghost use Rattle.tofix_replies.specs.Covered.{put_so, AreNear, IsCovered};
ghost use Rattle.tofix_replies.specs.ToFix.{text_limit, text_reply};

use crate::frames::write_frame;
use crate::notes::note_halt;
use fix_messages::{FixHead, MessageRows, write_text};
use flyweight_view::BlockView;
use lists::NoMem;
use message_walk::{Halt, PutValue};
use open_framing::HEAD_BYTES;
use printers::Chunk;
use replies::Verdict;
use sbe_base::{Sink, Status, WriteFault};
use sbe_types::Level;
use std::alloc::Global;
use tagvalue_codec::FixWriter;

/// What replies are made with: the text, the first refusal, and the chunk through which lines are printed. It is lent
/// from frame to frame.
#[derive(Drop)]
pub struct TextSpace {
    pub out: FixWriter,
    pub halt: Halt,
    pub chunk: Chunk,
}

impl TextSpace {
    /// Allocates memory for a text in a frame of at most `frame` bytes.
    ///
    /// # Errors
    ///
    /// If memory runs out.
    pub fn new(alloc: Global, frame: usize) -> Result<TextSpace, NoMem>
        requires least { HEAD_BYTES ≤ frame }
        requires most { frame ≤ 16_777_216 }
        ensures { IfOk result (λ space. space.out.limit ≡ text_limit frame) }
    {
        Ok(TextSpace {
            out: FixWriter::new(alloc, frame - HEAD_BYTES)?,
            halt: Halt::new(),
            chunk: Chunk::new(),
        })
    }
}

/// Writes the reply to a message of a covered template: the frame of its text to the output, or the line of why it has
/// none to the notes. Allocates nothing.
///
/// # Errors
///
/// `WriteFault` if a write fails. The sink then holds a prefix of the frame or line.
pub fn answer_covered<O: Sink, N: Sink, R: PutValue>(
    template: &MessageRows<'_, R>,
    level: &Level,
    root: &BlockView<'_>,
    item: u64,
    head: &FixHead<'_>,
    space: &mut TextSpace,
    output: &mut O,
    notes: &mut N,
) -> Result<Verdict, Status>
    requires head { IsHeadReady (head_of head.now) }
    requires kind { IsValue template.now.msg_type.now }
    requires room { space.old.out.limit < 2 ^ 24 }
    requires covered { IsCovered R.spells template.now.rows.now root.now }
    ensures delivers { (lists : TagLists) (p : Plan) → AreRows R.spells lists p template.now.rows.now → FitsBlock p root.now
        → AreNear (text_refusal lists space.old.out.limit template.now.msg_type.now (head_of head.now) (places_of p (values_of p root.now.block)))
        → DeliversDraft (text_reply item level.now p (message_text lists template.now.msg_type.now (head_of head.now) (place_fields (places_of p (values_of p root.now.block)).places))
        (text_refusal lists space.old.out.limit template.now.msg_type.now (head_of head.now) (places_of p (values_of p root.now.block))))
        (sinks_of (O.state output.old) (N.state notes.old))
        (sinks_of (O.state output.new) (N.state notes.new))
        result }
    ensures limit { space.new.out.limit ≡ space.old.out.limit }
    ensures wants { Wants true result }
{
    if write_text(template, root, head, &mut space.out, &mut space.halt) {
        let put = write_frame(output, &mut space.out);
        return verdict_of(put, Verdict::Translated);
    }
    let put = note_halt(
        notes,
        item,
        template.rows,
        level,
        &space.halt,
        &mut space.chunk,
    );
    verdict_of(put, Verdict::Refused)
}

/// What becomes of an item after its frame or line was written.
pub(crate) fn verdict_of(put: Result<(), WriteFault>, verdict: Verdict) -> Result<Verdict, Status>
    ensures told { result ≡ put_so put verdict }
    ensures wants { Wants true result }
{
    match put {
        Ok(()) => Ok(verdict),
        Err(WriteFault) => Err(Status::WriteFault),
    }
}
