//! Single values of a body.
ghost use Rattle.std.specs.Prelude.{◌≡◌, Some};
ghost use Rattle.std.specs.Option.{option_map};
ghost use Rattle.field_lookup.specs.Places.{message_data, message_text, spot_at};
ghost use Rattle.sbe_c.specs.Fields.{AnswersNumber, AnswersState, AnswersText, GivesText};
ghost use Rattle.sbe_c.specs.Outcomes.{outcome};

use crate::answers::{Answer, Report, state_number, tell_fault};
use crate::filling::fill;
use crate::opened::Opened;
use crate::reading::Number;
use field_lookup::{FieldPlace, Step, message_data, message_number, message_state, message_text};
use flyweight_view::validate;

/// Reads the number of a field, or the first fault of the body.
pub fn number_in(
    opened: &Opened,
    body: &[u8],
    steps: &[Step],
    field: FieldPlace,
    number: &mut Number,
    report: &mut Report,
) -> Answer
    ensures { AnswersNumber result (Some opened.now) body.now (spot_at steps.now field) (number.new, report.new) }
{
    match validate(opened.layout(), body) {
        Ok(view) => {
            *number = Number::of(message_number(&view, steps, field));
            Answer::Done
        }
        Err(refusal) => {
            tell_fault(&refusal, report);
            Answer::Body
        }
    }
}

/// Reports the state of a field, or the first fault of the body.
pub fn state_in(
    opened: &Opened,
    body: &[u8],
    steps: &[Step],
    field: FieldPlace,
    report: &mut Report,
) -> Answer
    ensures { AnswersState result (Some opened.now) body.now (spot_at steps.now field) report.new }
{
    match validate(opened.layout(), body) {
        Ok(view) => match message_state(&view, steps, field) {
            Some(state) => {
                report.code = state_number(state);
                Answer::Done
            }
            None => Answer::Absent,
        },
        Err(refusal) => {
            tell_fault(&refusal, report);
            Answer::Body
        }
    }
}

/// Writes the text of a field into the caller's buffer, or reports the first fault of the body.
pub fn text_in(
    opened: &Opened,
    body: &[u8],
    steps: &[Step],
    field: FieldPlace,
    text: &mut [u8],
    report: &mut Report,
) -> Answer
    ensures { AnswersText (message_text (spot_at steps.now field)) result (Some opened.now) body.now (outcome text.old text.new report.new) }
{
    match validate(opened.layout(), body) {
        Ok(view) => give(message_text(&view, steps, field), text, report),
        Err(refusal) => {
            tell_fault(&refusal, report);
            Answer::Body
        }
    }
}

/// Writes the bytes of a data part into the caller's buffer, or reports the first fault of the body.
pub fn data_in(
    opened: &Opened,
    body: &[u8],
    steps: &[Step],
    part: usize,
    bytes: &mut [u8],
    report: &mut Report,
) -> Answer
    ensures { AnswersText (message_data steps.now part) result (Some opened.now) body.now (outcome bytes.old bytes.new report.new) }
{
    match validate(opened.layout(), body) {
        Ok(view) => give(message_data(&view, steps, part), bytes, report),
        Err(refusal) => {
            tell_fault(&refusal, report);
            Answer::Body
        }
    }
}

/// Writes a text into the caller's buffer, if there is one.
fn give(text: Option<&[u8]>, buffer: &mut [u8], report: &mut Report) -> Answer
    ensures { GivesText result (option_map (λ b. b.now) text.entry) (outcome buffer.old buffer.new report.new) }
{
    let Some(text) = text else {
        return Answer::Absent;
    };
    fill(buffer, text);
    report.length = text.len();
    if text.len() > buffer.len() {
        return Answer::Room;
    }
    Answer::Done
}
