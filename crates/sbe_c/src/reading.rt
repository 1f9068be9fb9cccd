//! Numbers of the entries of a group.
ghost use Rattle.std.specs.Prelude.{◌≡◌, map, Some, IfOk, IfErr};
ghost use Rattle.sbe_c.specs.Outcomes.{number_told, numbers_outcome};
ghost use Rattle.sbe_c.specs.Reading.{AnswersFind, AnswersNumbers, AreNumbers, IsNoReading, numbers_at, value_at};

use crate::answers::{Answer, Report, tell_fault};
use crate::filling::fill;
use crate::opened::Opened;
use field_lookup::{EntryField, EntryNames, composite_of, find_field, number_of};
use flyweight_view::{BlockView, EntriesView, MsgView, Refusal, validate};
use layout_names::LayoutNames;
use layout_tables::Layout;
use lists::NoMem;
use std::alloc::Global;

/// A number, or that there is none.
#[repr(C)]
#[derive(Clone, Copy)]
pub struct Number {
    /// Whether there is one.
    pub is_there: bool,
    /// Whether it is below 0.
    pub is_negative: bool,
    /// How many times 2^64 its size has.
    pub high: u64,
    /// The rest of its size.
    pub low: u64,
}

/// Why there are no numbers.
#[derive(Drop)]
pub enum ReadErr {
    /// No message of the schema lies in the body.
    Refused(Refusal),
    /// Out of memory.
    Memory,
}

const WORD: u128 = 1 << 64;

impl Number {
    /// A number as C sees it.
    pub fn of(number: Option<i128>) -> Number
        ensures { number_told result ≡ number }
    {
        match number {
            Some(n) => Number::there(n),
            None => Number {
                is_there: false,
                is_negative: false,
                high: 0,
                low: 0,
            },
        }
    }

    /// A number that is there.
    fn there(n: i128) -> Number
        ensures { number_told result ≡ Some n }
    {
        let size = n.unsigned_abs();
        Number {
            is_there: true,
            is_negative: n < 0,
            high: (size / WORD) as u64,
            low: (size % WORD) as u64,
        }
    }
}

/// Finds the field of a group's entries by its names.
pub fn find_in(
    alloc: Global,
    opened: &Opened,
    names: &EntryNames<'_>,
    place: &mut EntryField,
) -> Answer
    ensures { AnswersFind result (Some opened.now) names.now place.new }
{
    let layout = opened.layout();
    let Ok(tables) = LayoutNames::new(alloc, layout) else {
        return Answer::Memory;
    };
    match find_field(layout, &tables, names) {
        Some(found) => {
            *place = found;
            Answer::Done
        }
        None => Answer::Absent,
    }
}

/// Writes the numbers of a field of a group's entries into the caller's buffer, or reports the first fault of the body.
pub fn numbers_in(
    alloc: Global,
    opened: &Opened,
    body: &[u8],
    place: EntryField,
    numbers: &mut [Number],
    report: &mut Report,
) -> Answer
    ensures { AnswersNumbers result (Some opened.now) body.now place (numbers_outcome numbers.old numbers.new report.new) }
{
    match read(alloc, opened.layout(), body, place) {
        Ok(read) => {
            fill(numbers, read.as_slice());
            report.length = read.len();
            if read.len() > numbers.len() {
                return Answer::Room;
            }
            Answer::Done
        }
        Err(ReadErr::Refused(refusal)) => {
            tell_fault(&refusal, report);
            Answer::Body
        }
        Err(ReadErr::Memory) => Answer::Memory,
    }
}

/// The numbers of a field of the entries of a group, in the message that lies in a body.
fn read(
    alloc: Global,
    layout: &Layout,
    body: &[u8],
    place: EntryField,
) -> Result<Vec<Number>, ReadErr>
    ensures numbers { IfOk result (λ numbers. AreNumbers layout.now body.now place numbers.items) }
    ensures refused { IfErr result (IsNoReading layout.now body.now) }
{
    match validate(layout, body) {
        Ok(view) => match numbers_of(alloc, &view, place) {
            Ok(numbers) => Ok(numbers),
            Err(NoMem) => Err(ReadErr::Memory),
        },
        Err(refusal) => Err(ReadErr::Refused(refusal)),
    }
}

/// The numbers of a field of the entries of a group in a message. A message of another template has none.
fn numbers_of(alloc: Global, view: &MsgView<'_>, place: EntryField) -> Result<Vec<Number>, NoMem>
    ensures { IfOk result (λ numbers. map number_told numbers.items ≡ numbers_at place view.now) }
{
    if view.template() != place.template {
        return Ok(Vec::new(alloc));
    }
    let root = view.root();
    if place.group >= root.counts().1 {
        return Ok(Vec::new(alloc));
    }
    match root.group(place.group) {
        Some(entries) => numbers_over(alloc, entries, place.field),
        None => Ok(Vec::new(alloc)),
    }
}

/// The numbers of a field of entries.
fn numbers_over(alloc: Global, entries: EntriesView<'_>, field: usize) -> Result<Vec<Number>, NoMem>
    ensures { IfOk result (λ numbers. map number_told numbers.items ≡ map (value_at field) entries.entry) }
{
    let mut numbers = Vec::new(alloc);
    for entry in entries {
        numbers.push(Number::of(value_of(&entry, field)))?;
    }
    Ok(numbers)
}

/// The number of a field, or of its first member if it is a composite.
fn value_of(block: &BlockView<'_>, i: usize) -> Option<i128>
    ensures { result ≡ value_at i block.now }
{
    if i >= block.counts().0 {
        return None;
    }
    match composite_of(block, i) {
        Some(members) => number_of(&members, 0),
        None => number_of(block, i),
    }
}
