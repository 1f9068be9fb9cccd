ghost use Rattle.std.specs.Prelude.{◌≡◌, ◌≤◌, length, true};
ghost use Rattle.printed_lines.specs.Bodies.{IsBodyOf, IsOwnBody};

use crate::constants::are_bytes;
use crate::lines::PrintedLines;
use clean_walk::is_clean_body;
use flyweight_view::validate;
use line_draft::{BodyDraft, draft_body};
use line_match::is_line_of;

/// Writes the body of the message that a line holds, if the line has the form in which messages are printed. The body
/// replaces the contents of the draft. `false` is inconclusive: the line may have another form, or its message may have
/// no body within the limit or within the draft's size. Allocates nothing.
#[tactic(auto, using(crate::proofs::OwnBodies::within_limit))]
pub fn body_of_line(
    printed: &PrintedLines,
    line: &[u8],
    limit: usize,
    draft: &mut BodyDraft,
) -> bool
    ensures body { result ≡ true → IsBodyOf printed.now line.now limit draft.new }
    ensures within { result ≡ true → length draft.new ≤ limit }
{
    let schema = printed.lines().schema();
    if !draft_body(schema, line, draft) {
        return false;
    }
    let body = draft.bytes();
    if body.len() > limit {
        return false;
    }
    is_own_body(printed, line, body)
}

/// Whether a body is the canonical one of a message, and the line is that message's.
fn is_own_body(printed: &PrintedLines, line: &[u8], body: &[u8]) -> bool
    ensures { result ≡ true → IsOwnBody printed.now line.now body.now }
{
    are_bytes(body);
    let lines = printed.lines();
    let _schema = lines.schema();
    let layout = lines.layout();
    let Ok(view) = validate(layout, body) else {
        return false;
    };
    if view.version() != layout.version() {
        return false;
    }
    if !is_line_of(lines, &view, line) {
        return false;
    }
    is_clean_body(layout, view.template(), body)
}
