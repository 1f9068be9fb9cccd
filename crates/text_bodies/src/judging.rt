ghost use Rattle.std.specs.Prelude.{◌≡◌, ◌<◌, length, true};
ghost use Rattle.byte_digits.specs.Digits.{IsBytes};
ghost use Rattle.tagvalue_codec.specs.Drafts.{IsValue};
ghost use Rattle.fix_messages.specs.Heads.{head_of, IsHeadReady};
ghost use Rattle.text_bodies.specs.Bodies.{IsBodyOfText, IsHeadFor, IsPlannedBy, Reading};

use crate::few::is_few;
use crate::space::JudgeSpace;
use back_texts::laws::written_messages_are_those_of_their_texts;
use clean_walk::is_clean_body;
use fix_messages::{FixHead, MessageRows};
use flyweight_view::look;
use layout_tables::Layout;
use message_walk::PutValue;
use text_match::has_text;

/// Whether a body is the canonical one of a message of this template, and the bytes are the text that the message is written as
/// with this head. If so, and if the template's texts can be read, they are a text and the message is the one that it is
/// translated to. `false` is inconclusive. Allocates nothing.
pub fn is_body_of_text<R: PutValue>(
    layout: &Layout,
    template: usize,
    rows: &MessageRows<'_, R>,
    head: &FixHead<'_>,
    text: &[u8],
    body: &[u8],
    space: &mut JudgeSpace,
) -> bool
    requires head { IsHeadReady (head_of head.now) }
    requires kind { IsValue rows.now.msg_type.now }
    ensures { result ≡ true → (r : Reading) → IsPlannedBy R.spells layout.now template rows.now r → IsHeadFor (head_of head.now) r
        → IsBodyOfText layout.now template r text.now body.now }
{
    written_messages_are_those_of_their_texts();
    are_bytes(body);
    let _schema = layout.schema();
    if !is_short(text) {
        return false;
    }
    if !is_few(text) {
        return false;
    }
    let Some(view) = look(layout, body, &mut space.last) else {
        return false;
    };
    if view.template() != template {
        return false;
    }
    if view.version() != layout.version() {
        return false;
    }
    let root = view.root();
    if !has_text(rows, &root, head, text, &mut space.out, &mut space.halt) {
        return false;
    }
    is_clean_body(layout, template, body)
}

/// The items of a byte slice are bytes.
fn are_bytes(bytes: &[u8])
    ensures { IsBytes bytes.now }
{}

/// Whether a text has a length that a BodyLength can have.
fn is_short(text: &[u8]) -> bool
    ensures { result ≡ true → length text.now < 1000000000 }
{
    text.len() < 1_000_000_000
}
