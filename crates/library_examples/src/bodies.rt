// Turns a line of JSON into a body.
ghost use Rattle.std.specs.Prelude.{◌≡◌, length, IfOk, IfErr, OnOk};
ghost use Rattle.library_examples.specs.Bodies.{IsBodyOf, IsNoBody};

use layout_tables::Layout;
use line_reading::msg_of_line;
use line_values::LineFault;
use schema_check::Checked;
use std::alloc::Global;
use tree_codec::{EncodeErr, encode};
use typed_writer::FrameBuf;

/// Why a line has no body.
#[derive(Drop)]
pub enum BodyErr {
    /// The line doesn't hold a message of the schema.
    Line(LineFault),
    /// The message has no canonical body within the buffer's limit.
    Misfit(EncodeErr),
}

/// Writes the canonical body of the message that a line of JSON holds, and returns its length in bytes. The layout is
/// that of the checked schema.
///
/// # Errors
///
/// `Line` and `Misfit` carry the first fault, with its place.
pub fn body_of_line(
    alloc: Global,
    checked: &Checked,
    layout: &Layout,
    line: &[u8],
    buffer: &mut FrameBuf,
) -> Result<usize, BodyErr>
    requires { layout.now ≡ checked.now }
    ensures body { OnOk result (IsBodyOf checked.now line.now buffer.old.limit buffer.new.bytes) }
    ensures length { IfOk result (λ n. n ≡ length buffer.new.bytes) }
    ensures refused { IfErr result (IsNoBody checked.now line.now buffer.old.limit) }
{
    let message = match msg_of_line(alloc, checked, line) {
        Ok(message) => message,
        Err(fault) => return Err(BodyErr::Line(fault)),
    };
    match encode(layout, &message, buffer) {
        Ok(n) => Ok(n),
        Err(e) => Err(BodyErr::Misfit(e)),
    }
}
