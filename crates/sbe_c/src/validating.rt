//! Whether a body holds a message.
ghost use Rattle.std.specs.Prelude.{Some};
ghost use Rattle.sbe_c.specs.Outcomes.{outcome};
ghost use Rattle.sbe_c.specs.Validating.{AnswersValidate};

use crate::answers::{Answer, Report, fault_number};
use crate::opened::Opened;
use crate::opening::tell;
use crate::ways::way_of;
use flyweight_view::validate;
use lists::NoMem;
use std::alloc::Global;

/// The message of a body.
#[repr(C)]
#[derive(Clone, Copy)]
pub struct Message {
    /// Its template, counted from 0 in the schema's order.
    pub template: usize,
    /// The version in its header.
    pub version: u32,
}

/// Reports the message that lies in a body, or the first fault with its path.
pub fn validate_in(
    alloc: Global,
    opened: &Opened,
    body: &[u8],
    message: &mut Message,
    path: &mut [u8],
    report: &mut Report,
) -> Answer
    ensures { AnswersValidate result (Some opened.now) body.now message.new (outcome path.old path.new report.new) }
{
    let layout = opened.layout();
    match validate(layout, body) {
        Ok(view) => {
            message.template = view.template();
            message.version = view.version();
            Answer::Done
        }
        Err(refusal) => match way_of(alloc, layout, refusal.template, &refusal.path) {
            Ok(way) => {
                tell(
                    path,
                    report,
                    fault_number(refusal.code),
                    way.bytes.as_slice(),
                );
                report.offset = refusal.offset;
                Answer::Body
            }
            Err(NoMem) => Answer::Memory,
        },
    }
}
