ghost use Rattle.std.specs.Prelude.{◌≡◌, ◌++◌, [], codes, decimal, Result, IfOk, OnOk};
ghost use Rattle.json_elements.specs.declared.refusal.ElementErr.TheVariants.{Refused};
ghost use Rattle.json_elements.specs.Reading.{Reading, Gives, GoesOut, refuse, inside, at_child, step_text, pointer};

use itoa::Buffer;
use lists::{List, NoMem, Text};
use std::alloc::Global;
use thiserror::Error;

/// Why a file of elements is refused.
#[derive(Clone, Copy, Debug, PartialEq, Eq, Error)]
pub enum Cause {
    /// It begins like XML.
    #[error("begins as XML does")]
    Xml,
    /// It isn't a JSON value.
    #[error("no JSON value")]
    NotJson,
    /// It isn't an element that is allowed at its place.
    #[error("no element of this place")]
    Shape,
    /// A required attribute is missing.
    #[error("a missing attribute")]
    Missing,
    /// An attribute doesn't have its form.
    #[error("an attribute of another form")]
    BadAttribute,
    /// It breaks a limit.
    #[error("over a limit")]
    Limit,
}

/// A step of the path to what is refused: a name, or a position in an array, counted from 0.
#[derive(Clone, Copy, Debug, PartialEq, Eq)]
pub enum Step {
    Name(&'static str),
    Item(usize),
}

/// Why nothing was read: a refusal, with the steps to its place, innermost first, or out of memory.
#[derive(Debug, Drop, Error)]
pub enum ElementErr {
    #[error("{0}")]
    Refused(Cause, List<Step>),
    #[error("out of memory")]
    Memory,
}

impl From<NoMem> for ElementErr {
    ghost use Rattle.json_elements.specs.declared.refusal.ElementErr.TheVariants.{Memory};

    ghost from_gives = { λ _ e. e ≡ Memory };

    fn from(_: NoMem) -> ElementErr {
        ElementErr::Memory
    }
}

/// Refuses what is being read, with this cause.
pub fn refuse<T>(alloc: Global, cause: Cause) -> Result<T, ElementErr>
    ensures { Gives result (refuse cause) }
{
    Err(refused(alloc, cause))
}

/// The same, independent of the type that was to be read.
pub(crate) fn refused(alloc: Global, cause: Cause) -> ElementErr
    ensures { result ≡ Refused cause [] }
{
    ElementErr::Refused(cause, List::new(alloc))
}

/// The result of reading one level below, as seen from here: a refusal gets one more step.
pub fn inside<T: Drop>(step: &'static str, read: Result<T, ElementErr>) -> Result<T, ElementErr>
    ensures { (told : Reading T) → Gives read told → Gives result (inside step.now told) }
{
    match read {
        Ok(found) => Ok(found),
        Err(e) => Err(e.within(Step::Name(step))),
    }
}

/// The result of reading the child at position `i`, as seen from the element around it.
pub fn at_child<T: Drop>(i: usize, read: Result<T, ElementErr>) -> Result<T, ElementErr>
    ensures { (told : Reading T) → Gives read told → Gives result (at_child i told) }
{
    inside("content", at_position(i, read))
}

/// The result of reading position `i` of an array, as seen from the array.
fn at_position<T: Drop>(i: usize, read: Result<T, ElementErr>) -> Result<T, ElementErr>
    ensures { (told : Reading T) → Gives read told → Gives result (inside (decimal i) told) }
{
    match read {
        Ok(found) => Ok(found),
        Err(e) => Err(e.within(Step::Item(i))),
    }
}

impl ElementErr {
    /// The same refusal, with one more outer step.
    fn within(self, step: Step) -> ElementErr
        ensures { GoesOut step self result }
    {
        match self {
            ElementErr::Memory => ElementErr::Memory,
            ElementErr::Refused(cause, mut steps) => match steps.push(step) {
                Ok(()) => ElementErr::Refused(cause, steps),
                Err(_) => ElementErr::Memory,
            },
        }
    }
}

/// The JSON pointer of these steps, given innermost first.
pub fn path_of(alloc: Global, steps: &[Step]) -> Result<Text, NoMem>
    ensures { IfOk result (λ text. text ≡ pointer steps.now) }
{
    let mut text = List::new(alloc);
    let mut left = steps.len();
    while left > 0 {
        left -= 1;
        let step = steps[left];
        push_step(&mut text, step)?;
    }
    Ok(text)
}

fn push_step(text: &mut Text, step: Step) -> Result<(), NoMem>
    ensures { OnOk result (text.new ≡ text.old ++ (codes "/" ++ step_text step)) }
{
    text.push(b'/')?;
    match step {
        Step::Name(name) => text.extend(name.as_bytes()),
        Step::Item(i) => text.extend(Buffer::new().format(i as u64).as_bytes()),
    }
}
