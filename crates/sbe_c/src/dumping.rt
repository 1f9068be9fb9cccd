//! The line of a body.
ghost use Rattle.std.specs.Prelude.{◌≡◌, Some, slice_get, IfOk, IfErr};
ghost use Rattle.serde_json.specs.Written.{compact_text};
ghost use Rattle.tree_json.specs.Lines.{message_at};
ghost use Rattle.sbe_c.specs.Dumping.{IsLine, IsNoLine, AnswersDump};
ghost use Rattle.sbe_c.specs.Outcomes.{outcome};

use crate::answers::{Answer, Report, tell_fault};
use crate::filling::fill;
use crate::opened::Opened;
use crate::text_sink::TextSink;
use flyweight_view::{MsgView, Refusal, validate};
use lists::NoMem;
use sbe_base::WriteFault;
use std::alloc::Global;
use tree_json::LineLayout;

/// Why a body has no line.
#[derive(Drop)]
pub enum DumpErr {
    /// No message of the schema lies in the body.
    Refused(Refusal),
    /// Out of memory.
    Memory,
}

/// The line of the message that lies in a body.
///
/// # Errors
///
/// `Refused` has the first fault of a body that holds no message.
fn dump(alloc: Global, lines: &LineLayout, body: &[u8]) -> Result<TextSink, DumpErr>
    ensures line { IfOk result (λ text. IsLine lines.now body.now text.bytes.items) }
    ensures refused { IfErr result (IsNoLine lines.now body.now) }
{
    match validate(lines.layout(), body) {
        Ok(view) => match text_of(alloc, lines, &view) {
            Ok(text) => Ok(text),
            Err(NoMem) => Err(DumpErr::Memory),
        },
        Err(refusal) => Err(DumpErr::Refused(refusal)),
    }
}

/// The line of a message.
fn text_of(alloc: Global, lines: &LineLayout, view: &MsgView<'_>) -> Result<TextSink, NoMem>
    requires { slice_get lines.now.messages view.now.message.template ≡ Some view.now.level }
    ensures { IfOk result (λ text. text.bytes.items ≡ compact_text (message_at (Some view.now.level) view.now.message)) }
{
    let mut text = TextSink::new(alloc);
    match lines.line_of(view, &mut text) {
        Ok(()) => Ok(text),
        Err(WriteFault) => Err(NoMem),
    }
}

/// Writes the line of the message that lies in a body into the caller's buffer, or reports the first fault.
pub fn dump_in(
    alloc: Global,
    opened: &Opened,
    body: &[u8],
    line: &mut [u8],
    report: &mut Report,
) -> Answer
    ensures { AnswersDump result (Some opened.now) body.now (outcome line.old line.new report.new) }
{
    match dump(alloc, opened.lines(), body) {
        Ok(text) => {
            fill(line, text.bytes.as_slice());
            report.length = text.bytes.len();
            if text.bytes.len() > line.len() {
                return Answer::Room;
            }
            Answer::Done
        }
        Err(DumpErr::Refused(refusal)) => {
            tell_fault(&refusal, report);
            Answer::Body
        }
        Err(DumpErr::Memory) => Answer::Memory,
    }
}
