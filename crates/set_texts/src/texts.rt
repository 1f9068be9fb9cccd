// The texts of sets.
ghost use Rattle.std.specs.Prelude.{◌≡◌, ◌≤◌, ◌++◌, List, length, IfOk, IfSome, Ok};
ghost use Rattle.fix_values.specs.declared.rule.Code.{Code as AnyCode};
ghost use Rattle.fix_values.specs.Codes.{set_text};
ghost use Rattle.set_texts.specs.Runs.{AreRuns, IsRun};
ghost use Rattle.set_texts.specs.Texts.{HasTexts, IsWritten};

use crate::parts::PART_BYTES;
use crate::runs::{CodeRun, run_of};
use fix_values::Code;
use lists::{List, NoMem};
use std::alloc::Global;

/// Room for the text of each set, with a space before it, and for the bytes that are copied after it.
pub const SET_ROOM: usize = 136;

/// The texts of the codes of sets, by four of the codes' bits.
#[derive(Drop)]
pub struct SetTexts {
    runs: List<CodeRun>,
}

/// A text that is written: where it ends, and the number that its codes' bits make up.
#[derive(Clone, Copy)]
struct Written {
    end: usize,
    shown: u64,
}

impl SetTexts {
    /// The texts of a list of codes. `None` if a code isn't one byte other than SOH or has no bit of 64, or if more than four codes
    /// have their bits among the same four.
    ///
    /// # Errors
    ///
    /// If memory runs out.
    pub fn new(alloc: Global, codes: &[Code]) -> Result<Option<SetTexts>, NoMem>
        ensures { IfOk result (λ made. IfSome made (λ texts. HasTexts texts codes.now)) }
    {
        let mut runs = List::new(alloc);
        let mut at = 0usize;
        while at < codes.len() {
            match run_of(alloc, &codes[at..])? {
                Some(run) => {
                    at += run.many();
                    runs.push(run)?;
                }
                None => return Ok(None),
            }
        }
        Ok(Some(SetTexts { runs }))
    }

    /// The text of a set. `None` is inconclusive.
    #[inline(always)]
    pub fn text_in<'r>(&self, bits: u64, room: &'r mut [u8; SET_ROOM]) -> Option<&'r [u8]>
        requires { length room.old ≡ SET_ROOM }
        ensures { IfSome result (λ text. (codes : List AnyCode) → HasTexts self.now codes → set_text codes bits ≡ Ok text.now) }
    {
        let written = write_parts(self.runs.as_slice(), bits, room)?;
        if written.shown != bits || written.end < 2 {
            return None;
        }
        Some(&room[1..written.end])
    }
}

/// Writes the texts of all runs, one after another. `None` if there is no room.
#[inline(always)]
fn write_parts(runs: &[CodeRun], bits: u64, room: &mut [u8; SET_ROOM]) -> Option<Written>
    requires { length room.old ≡ SET_ROOM }
    ensures long { length room.new ≡ SET_ROOM }
    ensures within { IfSome result (λ written. written.end ≤ SET_ROOM) }
    ensures all { IfSome result (λ written. (codes : List AnyCode) → AreRuns runs.now codes → IsWritten written room.new codes bits) }
{
    let mut written = Written { end: 0, shown: 0 };
    for run in runs {
        written = write_part(run, bits, written, room)?;
    }
    Some(written)
}

/// Writes the text of a run after what is written.
#[inline(always)]
fn write_part(
    run: &CodeRun,
    bits: u64,
    written: Written,
    room: &mut [u8; SET_ROOM],
) -> Option<Written>
    requires { length room.old ≡ SET_ROOM }
    ensures long { length room.new ≡ SET_ROOM }
    ensures within { IfSome result (λ new. new.end ≤ SET_ROOM) }
    ensures more { IfSome result (λ new. (before : List AnyCode) (codes : List AnyCode) → IsRun run.now codes → IsWritten written room.old before bits
        → IsWritten new room.new (before ++ codes) bits) }
{
    if written.end > SET_ROOM - PART_BYTES {
        return None;
    }
    let part = run.part(bits);
    let shown = written.shown.checked_add(part.shown())?;
    let end = part.put(room, written.end);
    Some(Written { end, shown })
}
