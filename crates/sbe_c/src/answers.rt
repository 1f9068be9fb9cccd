//! What an export answers.
ghost use Rattle.std.specs.Prelude.{◌≡◌};
ghost use Rattle.sbe_c.specs.Answers.{answer_code, cause_number, rule_number, fault_number, line_number, misfit_number, state_number};

use flyweight_view::{FieldState, Refusal};
use json_elements::Cause;
use line_values::JCode;
use sbe_wire::{FCode, NCode};
use schema_check::CCode;

/// What an export answers. C sees its number.
#[derive(Clone, Copy, Debug, PartialEq, Eq)]
pub enum Answer {
    /// It is done.
    Done,
    /// The handle isn't open.
    Closed,
    /// Out of memory.
    Memory,
    /// The bytes don't hold the elements of a schema.
    File,
    /// The schema breaks a rule.
    Rule,
    /// No message of the schema lies in the body.
    Body,
    /// The caller's buffer is too small.
    Room,
    /// Nothing has these names.
    Absent,
    /// The line doesn't hold a message of the schema.
    Line,
    /// The message has no body that the caller's buffer has room for.
    Misfit,
}

impl Answer {
    /// The number that C sees.
    pub fn code(self) -> u32
        ensures { result ≡ answer_code self }
    {
        match self {
            Answer::Done => 0,
            Answer::Closed => 1,
            Answer::Memory => 2,
            Answer::File => 3,
            Answer::Rule => 4,
            Answer::Body => 5,
            Answer::Room => 6,
            Answer::Absent => 7,
            Answer::Line => 8,
            Answer::Misfit => 9,
        }
    }
}

/// What a call reports with its answer.
#[repr(C)]
#[derive(Clone, Copy)]
pub struct Report {
    /// Why something is refused: the number in a code, such as 2 in `F02`. Also the number of a state.
    pub code: u32,
    /// The offset of a fault from the body's first byte.
    pub offset: usize,
    /// How many bytes or numbers the answer has, even if the caller's buffer has room for fewer.
    pub length: usize,
}

/// The number in the code of a refused file.
pub fn cause_number(cause: Cause) -> u32
    ensures { result ≡ cause_number cause }
{
    match cause {
        Cause::Xml => 1,
        Cause::NotJson => 2,
        Cause::Shape => 3,
        Cause::Missing => 4,
        Cause::BadAttribute => 5,
        Cause::Limit => 6,
    }
}

/// The number in the code of a broken rule.
pub fn rule_number(rule: CCode) -> u32
    ensures { result ≡ rule_number rule }
{
    match rule {
        CCode::DuplicateType => 1,
        CCode::UnknownType => 2,
        CCode::Float => 3,
        CCode::Cycle => 4,
        CCode::BadEncoding => 5,
        CCode::BadNumber => 6,
        CCode::DuplicateValue => 7,
        CCode::Offset => 8,
        CCode::BlockShort => 9,
        CCode::BadHeader => 10,
        CCode::BadDimension => 11,
        CCode::BadData => 12,
        CCode::DuplicateName => 13,
        CCode::Order => 14,
        CCode::Since => 15,
        CCode::EmptyGroup => 16,
        CCode::Depth => 17,
        CCode::Width => 18,
        CCode::Presence => 19,
    }
}

/// The number in the code of a body's fault.
pub fn fault_number(code: FCode) -> u32
    ensures { result ≡ fault_number code }
{
    match code {
        FCode::ShortHeader => 1,
        FCode::SchemaId => 2,
        FCode::Template => 3,
        FCode::BlockShort => 4,
        FCode::Truncated => 5,
        FCode::Range => 6,
        FCode::EnumUnknown => 7,
        FCode::SetUnknown => 8,
        FCode::TextByte => 9,
        FCode::Count => 10,
        FCode::Length => 11,
        FCode::Trailing => 12,
    }
}

/// Reports the first fault of a body.
pub fn tell_fault(refusal: &Refusal, report: &mut Report)
    ensures code { report.new.code ≡ fault_number refusal.now.code }
    ensures offset { report.new.offset ≡ refusal.now.offset }
{
    report.code = fault_number(refusal.code);
    report.offset = refusal.offset;
}

/// The number in the code of a line's refusal.
pub fn line_number(code: JCode) -> u32
    ensures { result ≡ line_number code }
{
    match code {
        JCode::NotJson => 1,
        JCode::Shape => 2,
        JCode::UnknownName => 3,
        JCode::Kind => 4,
    }
}

/// The number in the code of a message's misfit.
pub fn misfit_number(code: NCode) -> u32
    ensures { result ≡ misfit_number code }
{
    match code {
        NCode::Range => 1,
        NCode::EnumUnknown => 2,
        NCode::SetUnknown => 3,
        NCode::TextByte => 4,
        NCode::Kind => 5,
        NCode::Count => 6,
        NCode::Length => 7,
        NCode::Full => 8,
        NCode::Shape => 9,
    }
}

/// The number of a field's state in C.
pub fn state_number(state: FieldState) -> u32
    ensures { result ≡ state_number state }
{
    match state {
        FieldState::Here => 0,
        FieldState::Null => 1,
        FieldState::Absent => 2,
        FieldState::Const => 3,
    }
}
