//! The reply of `tosbe` to a frame.

ghost use Rattle.std.specs.Prelude.{◌≡◌, ◌≤◌, ◌<◌, ◌^◌, List, length, true};
ghost use Rattle.replies.specs.Outside.{sinks_of};
ghost use Rattle.replies.specs.declared.verdict.Verdict.TheVariants.{Refused as RefusedItem};
ghost use Rattle.command_steps.specs.Replies.{Replied};
ghost use Rattle.tagvalue_codec.specs.declared.data_tags.Pair.{Pair};
ghost use Rattle.tagvalue_codec.specs.Places.{Holds};
ghost use Rattle.bridge_plan.specs.Mappings.{Mapping};
ghost use Rattle.message_plans.specs.Plans.{IsOnly};
ghost use Rattle.text_judge.specs.Judges.{HasBodyOf, IsFront, IsJudgeFor};
ghost use Rattle.fixcheck_command.specs.FixCheck.{put_so};
ghost use Rattle.build_command.specs.Build.{body_limit};
ghost use Rattle.open_framing.specs.declared.head.TheConstants.{TAG_VALUE};
ghost use Rattle.tosbe_command.specs.Bodies.{IsTextWithBody};
ghost use Rattle.tosbe_command.specs.Bridges.{tags_in};
ghost use Rattle.tosbe_command.specs.ToSbe.{IsItemReply, IsTextReply};

use crate::bridge::{Bridge, BridgeParts};
use crate::direct::DirectWay;
use crate::notes::{note_refused, note_several};
use crate::space::MessageSpace;
use build_command::{answer_body, answer_message};
use fixcheck_command::{note_encoding, note_fault};
use open_framing::TAG_VALUE;
use replies::Verdict;
use sbe_base::{Sink, Status, WriteFault};
use sbe_translation::{ToSbeErr, to_sbe};
use tagvalue_codec::read_fix;
use text_judge::TypedText;
use tofix_replies::{note_no_message, note_uncovered};

/// Writes the reply to a frame: that of its message to the output, or the line of a refused item to the notes.
///
/// # Errors
///
/// `WriteFault` if a write fails; `NoMemory` if memory runs out, and then nothing is written.
pub(crate) fn answer_frame<O: Sink, N: Sink>(
    bridge: &Bridge,
    item: u64,
    encoding: u16,
    body: &[u8],
    space: &mut MessageSpace,
    output: &mut O,
    notes: &mut N,
) -> Result<Verdict, Status>
    requires room { space.old.buffer.limit < 2 ^ 24 }
    requires size { space.old.buffer.limit ≡ body_limit bridge.now.frame }
    ensures replied { Replied (length body.now) (IsItemReply bridge.now item (record { encoding = encoding; body = body.now }))
        (sinks_of (O.state output.old) (N.state notes.old))
        (sinks_of (O.state output.new) (N.state notes.new))
        result }
    ensures limit { space.new.buffer.limit ≡ space.old.buffer.limit }
{
    if encoding != TAG_VALUE {
        return refused(note_encoding(notes, item, encoding, &mut space.chunk));
    }
    if has_drafted(bridge, body, space) {
        return answer_body(
            &bridge.ways.parts.layout,
            space.draft.bytes(),
            &mut space.chunk,
            output,
        );
    }
    answer_read(bridge, item, body, space, output, notes)
}

/// Drafts the body of what may be a text, and judges whether it is one and the body is that of its message. `false` is inconclusive.
/// Allocates nothing.
fn has_drafted(bridge: &Bridge, text: &[u8], space: &mut MessageSpace) -> bool
    ensures body { result ≡ true → IsTextWithBody bridge.now text.now space.new.draft }
    ensures within { result ≡ true → length space.new.draft ≤ space.old.buffer.limit }
    ensures limit { space.new.buffer.limit ≡ space.old.buffer.limit }
{
    let direct = &bridge.ways.direct;
    let Some(front) = direct.judge.front_in(text) else {
        return false;
    };
    let Some(template) = direct.judge.template_for(front.kind, space.template) else {
        return false;
    };
    space.template = template;
    let typed = TypedText {
        template,
        front,
        text,
    };
    has_drafted_typed(direct, &bridge.ways.parts, &typed, space)
}

/// The same for bytes with a MsgType, and the template that alone has it.
fn has_drafted_typed(
    direct: &DirectWay,
    parts: &BridgeParts,
    typed: &TypedText<'_>,
    space: &mut MessageSpace,
) -> bool
    requires { IsFront direct.now.judge.head typed.now.front }
    ensures body { result ≡ true → (m : Mapping) (tags : List Pair) (only : IsOnly typed.now.front.kind.now parts.now.layout.messages typed.now.template)
        → IsJudgeFor m parts.now.layout tags direct.now.judge
        → HasBodyOf m parts.now.layout typed.now.template only.level (record { tags = tags; text = typed.now.text.now; body = space.new.draft }) }
    ensures within { result ≡ true → length space.new.draft ≤ space.old.buffer.limit }
    ensures limit { space.new.buffer.limit ≡ space.old.buffer.limit }
{
    if !direct.drafts.draft_text(parts, typed, &mut space.draft) {
        return false;
    }
    let body = space.draft.bytes();
    if body.len() > space.buffer.limit() {
        return false;
    }
    direct
        .judge
        .is_message_of(&parts.layout, typed, body, &mut space.judging)
}

/// Reads bytes that may be a text, and writes the reply to its fields or to its first fault.
fn answer_read<O: Sink, N: Sink>(
    bridge: &Bridge,
    item: u64,
    body: &[u8],
    space: &mut MessageSpace,
    output: &mut O,
    notes: &mut N,
) -> Result<Verdict, Status>
    requires room { space.old.buffer.limit < 2 ^ 24 }
    requires size { space.old.buffer.limit ≡ body_limit bridge.now.frame }
    ensures replied { Replied (length body.now) (IsItemReply bridge.now item (record { encoding = TAG_VALUE; body = body.now }))
        (sinks_of (O.state output.old) (N.state notes.old))
        (sinks_of (O.state output.new) (N.state notes.new))
        result }
    ensures limit { space.new.buffer.limit ≡ space.old.buffer.limit }
{
    match read_fix(body, &bridge.ways.parts.planned.tags, &mut space.table) {
        Ok(()) => answer_translated(bridge, item, body, space, output, notes),
        Err(fault) => refused(note_fault(notes, item, &fault, &mut space.chunk)),
    }
}

/// Writes the reply to a text whose fields the table holds, as it is translated.
fn answer_translated<O: Sink, N: Sink>(
    bridge: &Bridge,
    item: u64,
    body: &[u8],
    space: &mut MessageSpace,
    output: &mut O,
    notes: &mut N,
) -> Result<Verdict, Status>
    requires room { space.old.buffer.limit < 2 ^ 24 }
    requires size { space.old.buffer.limit ≡ body_limit bridge.now.frame }
    requires held { Holds (tags_in bridge.now) body.now space.old.table }
    ensures replied { (held : Holds (tags_in bridge.now) body.now space.old.table)
        → Replied (length body.now) (IsTextReply bridge.now item held.fields)
        (sinks_of (O.state output.old) (N.state notes.old))
        (sinks_of (O.state output.new) (N.state notes.new))
        result }
    ensures limit { space.new.buffer.limit ≡ space.old.buffer.limit }
{
    match to_sbe(
        space.alloc,
        &bridge.ways.parts.planned.plan,
        &bridge.files.checked,
        body,
        &space.table,
    ) {
        Ok(message) => answer_message(
            &bridge.ways.parts.layout,
            item,
            &message,
            &mut space.buffer,
            &mut space.chunk,
            output,
            notes,
        ),
        Err(ToSbeErr::NoTemplate) => refused(note_no_message(notes, item, &mut space.chunk)),
        Err(ToSbeErr::Several) => refused(note_several(notes, item, &mut space.chunk)),
        Err(ToSbeErr::Uncovered(_, path)) => {
            refused(note_uncovered(notes, item, path, &mut space.chunk))
        }
        Err(ToSbeErr::Refused(why)) => refused(note_refused(notes, item, why, &mut space.chunk)),
        Err(ToSbeErr::Memory) => Err(Status::NoMemory),
    }
}

/// What becomes of an item whose refusal was noted.
fn refused(noted: Result<(), WriteFault>) -> Result<Verdict, Status>
    ensures { result ≡ put_so noted RefusedItem }
{
    match noted {
        Ok(()) => Ok(Verdict::Refused),
        Err(WriteFault) => Err(Status::WriteFault),
    }
}
