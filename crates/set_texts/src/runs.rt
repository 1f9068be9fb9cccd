// Codes that follow one another in a list, and their texts by four bits.
ghost use Rattle.std.specs.Prelude.{◌≡◌, ◌≤◌, ◌<◌, ◌+◌, List, true, take, length, IfOk, IfSome};
ghost use Rattle.std.specs.List.{AllByRecursion};
ghost use Rattle.fix_values.specs.declared.rule.Code.{Code as AnyCode};
ghost use Rattle.fix_values.specs.Codes.{codes_in};
ghost use Rattle.set_texts.specs.Parts.{IsPart};
ghost use Rattle.set_texts.specs.Runs.{AreParts, HasPlaceFrom, IsRun};

use crate::parts::{PartText, part_text, place_of};
use fix_values::Code;
use lists::{List, NoMem};
use std::alloc::Global;
use std::marker::Model;

/// How many bits are looked up at once.
const WIDTH: u32 = 4;

/// How many numbers so many bits have.
pub(crate) const PARTS: usize = 16;

/// Codes that follow one another in a list, whose bits are among four from the first one on, and their texts by those bits.
#[derive(Drop)]
pub(crate) struct CodeRun {
    first: u32,
    /// How many codes there are.
    many: usize,
    parts: List<PartText>,
}

impl Model for CodeRun {
    ghost use Rattle.std.specs.Prelude.{◌≡◌, ◌≤◌, ◌+◌, length};
    ghost use Rattle.set_texts.specs.declared.runs.TheConstants.{PARTS, WIDTH};
    ghost use Rattle.fix_values.specs.declared.rule.Code.{Code as AnyCode};
    ghost use Rattle.fix_values.specs.Codes.{codes_in};
    ghost use Rattle.set_texts.specs.Parts.{IsPart};
    ghost use Rattle.set_texts.specs.Runs.{Run};

    ghost Value = { Run };

    ghost view = { λ run. record { first = run.first; many = run.many; parts = run.parts } };

    ghost invariant = { λ run. (run.first + WIDTH ≤ 64) × (length run.parts ≡ PARTS) };
}

impl CodeRun {
    /// How many codes there are.
    pub(crate) fn many(&self) -> usize
        ensures { result ≡ self.now.many }
    {
        self.many
    }

    /// The texts of those of the codes whose bits a number has.
    #[inline(always)]
    pub(crate) fn part(&self, bits: u64) -> &PartText
        ensures { (codes : List AnyCode) → IsRun self.now codes → IsPart result.now (codes_in codes bits) }
    {
        self.parts.at((bits >> self.first) as usize % PARTS)
    }
}

/// The run that a list of codes begins with. `None` if there is no such run.
///
/// # Errors
///
/// If memory runs out.
pub(crate) fn run_of(alloc: Global, codes: &[Code]) -> Result<Option<CodeRun>, NoMem>
    ensures run { IfOk result (λ made. IfSome made (λ run. IsRun run (take run.many codes.now))) }
    ensures some { IfOk result (λ made. IfSome made (λ run. 0 < run.many)) }
    ensures within { IfOk result (λ made. IfSome made (λ run. run.many ≤ length codes.now)) }
{
    let Some(first) = first_of(codes) else {
        return Ok(None);
    };
    let many = count_from(codes, first);
    if many == 0 {
        return Ok(None);
    }
    match parts_of(alloc, &codes[..many], first)? {
        Some(parts) => Ok(Some(CodeRun { first, many, parts })),
        None => Ok(None),
    }
}

/// The first of the four bits among which that of the first code is.
fn first_of(codes: &[Code]) -> Option<u32>
    ensures { IfSome result (λ first. first + WIDTH ≤ 64) }
{
    if codes.is_empty() {
        return None;
    }
    let place = place_of(codes[0].number)?;
    Some(place / WIDTH * WIDTH)
}

/// How many codes at the front have one of four bits.
fn count_from(codes: &[Code], first: u32) -> usize
    ensures within { result ≤ length codes.now }
    ensures all { AllByRecursion (HasPlaceFrom first) (take result codes.now) }
{
    for i in 0..codes.len() {
        if !is_from(&codes[i], first) {
            return i;
        }
    }
    codes.len()
}

/// Whether a code has one of four bits.
fn is_from(code: &Code, first: u32) -> bool
    ensures { result ≡ true → HasPlaceFrom first code.now }
{
    match place_of(code.number) {
        Some(place) => first <= place && place - first < WIDTH,
        None => false,
    }
}

/// The texts of codes for each number of four bits.
fn parts_of(alloc: Global, codes: &[Code], first: u32) -> Result<Option<List<PartText>>, NoMem>
    requires { first + WIDTH ≤ 64 }
    ensures { IfOk result (λ made. IfSome made (λ parts. (length parts ≡ PARTS) × AreParts parts first codes.now)) }
{
    let mut parts = List::new(alloc);
    for n in 0..PARTS {
        match part_text(codes, (n as u64) << first) {
            Some(part) => parts.push(part)?,
            None => return Ok(None),
        }
    }
    Ok(Some(parts))
}
