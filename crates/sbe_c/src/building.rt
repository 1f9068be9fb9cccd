//! The body of a line.
ghost use Rattle.std.specs.Prelude.{Some, slice_get};
ghost use Rattle.std.specs.Option.{IsSome};
ghost use Rattle.layout_tables.specs.Paths.{IsPathOf};
ghost use Rattle.tree_codec.specs.Sized.{sized_err};
ghost use Rattle.sbe_c.specs.Building.{AnswersBuild, PutsIn, TellsWhy};
ghost use Rattle.sbe_c.specs.Outcomes.{outcome};

use crate::answers::{Answer, Report, line_number, misfit_number};
use crate::filling::fill;
use crate::opened::Opened;
use crate::opening::tell;
use crate::ways::way_of;
use layout_tables::Layout;
use line_reading::msg_of_line;
use line_values::LineFault;
use lists::NoMem;
use sbe_types::Msg;
use std::alloc::Global;
use tree_codec::{EncodeErr, encode};
use typed_writer::FrameBuf;

/// Writes the canonical body of the message that a line holds into the caller's buffer, or reports why not.
pub fn build_in(
    alloc: Global,
    opened: &Opened,
    line: &[u8],
    body: &mut [u8],
    path: &mut [u8],
    report: &mut Report,
) -> Answer
    ensures { AnswersBuild result (Some opened.now) line.now (outcome body.old body.new report.new) (outcome path.old path.new report.new) }
{
    match msg_of_line(alloc, opened.checked(), line) {
        Ok(message) => put_body(alloc, opened.layout(), &message, body, path, report),
        Err(LineFault::Refused(code, place)) => {
            tell(path, report, line_number(code), place.as_slice());
            Answer::Line
        }
        Err(LineFault::Memory) => Answer::Memory,
    }
}

/// Writes the canonical body of a message into the caller's buffer, or reports its first misfit. Requires one of the
/// schema's templates.
fn put_body(
    alloc: Global,
    layout: &Layout,
    message: &Msg,
    body: &mut [u8],
    path: &mut [u8],
    report: &mut Report,
) -> Answer
    requires { IsSome (slice_get layout.now.messages message.now.template) }
    ensures { PutsIn result layout.now message.now (outcome body.old body.new report.new) (outcome path.old path.new report.new) }
{
    let _schema = layout.schema();
    let Ok(mut buffer) = FrameBuf::new(alloc, body.len()) else {
        return Answer::Memory;
    };
    match encode(layout, message, &mut buffer) {
        Ok(n) => {
            fill(body, buffer.bytes());
            report.length = n;
            Answer::Done
        }
        Err(why) => tell_misfit(alloc, layout, message.template, &why, path, report),
    }
}

/// Reports the code and the path of a misfit. Requires a path of the message's template.
fn tell_misfit(
    alloc: Global,
    layout: &Layout,
    template: usize,
    why: &EncodeErr,
    path: &mut [u8],
    report: &mut Report,
) -> Answer
    requires { IsPathOf layout.now template why.now.path }
    ensures { TellsWhy result layout.now template (sized_err why.now) (outcome path.old path.new report.new) }
{
    match way_of(alloc, layout, Some(template), &why.path) {
        Ok(way) => {
            tell(path, report, misfit_number(why.code), way.bytes.as_slice());
            Answer::Misfit
        }
        Err(NoMem) => Answer::Memory,
    }
}
