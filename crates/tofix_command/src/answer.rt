//! The answer to a frame.

ghost use Rattle.std.specs.Prelude.{◌≡◌, ◌<◌, ◌^◌, length, true};
ghost use Rattle.replies.specs.Drafts.{DeliversDraft};
ghost use Rattle.replies.specs.Outside.{sinks_of};
ghost use Rattle.command_steps.specs.Replies.{Replied, Wants};
ghost use Rattle.bridge_plan.specs.Covers.{cover_of};
ghost use Rattle.fix_messages.specs.Heads.{head_of, IsHeadReady};
ghost use Rattle.tofix_replies.specs.Covered.{put_so};
ghost use Rattle.tofix_replies.specs.ToFix.{cover_reply, Bridge, IsToFixReply};
ghost use Rattle.replies.specs.declared.verdict.Verdict.TheVariants as verdicts;
ghost use Rattle.tofix_command.specs.Planned.{IsMessageOf, IsPlannedBy, IsSetUp, IsSetUpFor, IsWith};

use crate::translations::{Translation, Translations};
use command_steps::Kept;
use dump_lines::encoding_of;
use fix_messages::{FixHead, MessageRows};
use flyweight_view::{LastRefusal, MsgView, look};
use message_plans::Cover;
use replies::Verdict;
use sbe_base::{Sink, Status, WriteFault};
use tofix_replies::{
    TextSpace, answer_covered, note_encoding, note_fault, note_no_message, note_uncovered,
};

/// Writes the reply to a frame: the frame of its text to the output, or the line that says why it has none to the notes.
/// Allocates nothing.
pub fn answer_frame<O: Sink, N: Sink>(
    schemas: &Translations,
    kept: &Kept,
    encoding: u16,
    body: &[u8],
    head: &FixHead<'_>,
    space: &mut TextSpace,
    last: &mut LastRefusal,
    output: &mut O,
    notes: &mut N,
) -> Result<Verdict, Status>
    requires ready { IsSetUp schemas.now }
    requires head { IsHeadReady (head_of head.now) }
    requires room { space.old.out.limit < 2 ^ 24 }
    ensures replied { (b : Bridge) → IsSetUpFor b schemas.now → IsWith b kept.now (head_of head.now) space.old.out.limit
        → Replied (length body.now) (IsToFixReply b kept.now (record { encoding = encoding; body = body.now }))
        (sinks_of (O.state output.old) (N.state notes.old))
        (sinks_of (O.state output.new) (N.state notes.new))
        result }
    ensures limit { space.new.out.limit ≡ space.old.out.limit }
    ensures wants { Wants true result }
{
    if encoding != encoding_of(schemas.first.layout.order()) {
        return refused(note_encoding(notes, kept.items, encoding, &mut space.chunk));
    }
    let translation = schemas.schema_for(body);
    match look(&translation.layout, body, last) {
        Some(view) => answer_message(translation, &view, kept, head, space, output, notes),
        None => refused(note_fault(
            notes,
            &translation.layout,
            kept.items,
            last,
            &mut space.chunk,
        )),
    }
}

/// Writes the reply to a message.
fn answer_message<O: Sink, N: Sink>(
    translation: &Translation,
    view: &MsgView<'_>,
    kept: &Kept,
    head: &FixHead<'_>,
    space: &mut TextSpace,
    output: &mut O,
    notes: &mut N,
) -> Result<Verdict, Status>
    requires ready { IsMessageOf translation.now view.now }
    requires head { IsHeadReady (head_of head.now) }
    requires room { space.old.out.limit < 2 ^ 24 }
    ensures delivers { (b : Bridge) → IsPlannedBy b.mapping translation.now → IsWith b kept.now (head_of head.now) space.old.out.limit
        → DeliversDraft (cover_reply b kept.now view.now.level view.now.message.block (cover_of b.mapping view.now.level))
        (sinks_of (O.state output.old) (N.state notes.old))
        (sinks_of (O.state output.new) (N.state notes.new))
        result }
    ensures limit { space.new.out.limit ≡ space.old.out.limit }
    ensures wants { Wants true result }
{
    let _schema = translation.layout.schema();
    let template = view.template();
    match translation.plan.cover(template) {
        Cover::NoMessage => refused(note_no_message(notes, kept.items, &mut space.chunk)),
        Cover::Unmapped(path) => refused(note_uncovered(
            notes,
            kept.items,
            path.as_slice(),
            &mut space.chunk,
        )),
        Cover::Mapped(rows) => answer_covered(
            &MessageRows {
                msg_type: translation.plan.msg_type(template),
                rows: rows.as_slice(),
            },
            translation.layout.message(template),
            &view.root(),
            kept.items,
            head,
            space,
            output,
            notes,
        ),
    }
}

/// The verdict on an item whose line was noted in this way.
fn refused(put: Result<(), WriteFault>) -> Result<Verdict, Status>
    ensures told { result ≡ put_so put verdicts.Refused }
    ensures wants { Wants true result }
{
    match put {
        Ok(()) => Ok(Verdict::Refused),
        Err(WriteFault) => Err(Status::WriteFault),
    }
}
