// Checks fields in the order of the text.
ghost use Rattle.std.specs.Prelude.{◌≡◌, ◌<◌, [], IfOk, false, get_or, length, replicate, slice_get, Some};
ghost use Rattle.std.specs.Option.{option_map};
ghost use Rattle.fix_values.specs.Numerals.{integer_of};
ghost use Rattle.bridge_terms.specs.Parts.{pieces_of};
ghost use Rattle.bridge_terms.specs.Plans.{Plan, Repeat};
ghost use Rattle.bridge_terms.specs.WayBack.{count_read, first, group_wrong, wrong_at};
ghost use Rattle.field_judge.specs.Fields.{fields_of, part_with};
ghost use Rattle.field_judge.specs.Levels.{piece_wrong, IsLevel, IsNumbered, IsRowOf};
ghost use Rattle.field_judge.specs.Refusals.{refusal_of};
ghost use Rattle.field_judge.specs.declared.level.BackLevel.{BackLevel as AnyLevel};

use crate::counts::read_count;
use crate::field::AppField;
use crate::level::{BackGroup, BackLevel, BackPart, BackRow, place_in};
use crate::pieces::{is_run, piece_len};
use crate::refused::{Refused, text_wrong};
use crate::runs::run_len;
use crate::slices::{first, front, level_at, rest_from};
use lists::NoMem;
use std::alloc::Global;

/// The first refusal of fields in the order of the text, by a level of the structure and those of its groups.
///
/// # Errors
///
/// If memory runs out.
#[cycle(judge)]
pub fn judge_fields(
    alloc: Global,
    levels: &[BackLevel],
    level: &BackLevel,
    fields: &[AppField<'_>],
) -> Result<Option<Refused>, NoMem>
    ensures { IfOk result (λ told. (p : Plan) → IsLevel levels.now p level.now → IsNumbered p
        → option_map refusal_of told ≡ piece_wrong p (fields_of fields.now)) }
{
    let mut marks = no_marks(alloc, level.rows.len())?;
    let mut left = fields;
    'fields: while left.len() > 0 {
        let field = first(left);
        let rest = rest_from(left, 1);
        let Some(place) = place_in(level, field.tag) else {
            return Ok(Some(Refused::Unknown(field.tag)));
        };
        if is_marked(marks.as_slice(), place) {
            return Ok(Some(Refused::Repeated(field.tag)));
        }
        let row = level.rows.at(place);
        let many = run_len(row, rest);
        if let Some(refused) = judge_part(alloc, levels, row, field.text, front(rest, many))? {
            return Ok(Some(refused));
        }
        marks[place] = true;
        left = rest_from(rest, many);
    }
    Ok(None)
}

/// What is wrong with one part of the text.
#[cycle(judge)]
fn judge_part(
    alloc: Global,
    levels: &[BackLevel],
    row: &BackRow,
    text: &[u8],
    run: &[AppField<'_>],
) -> Result<Option<Refused>, NoMem>
    ensures { IfOk result (λ told. (p : Plan) → IsRowOf levels.now p row.now
        → option_map refusal_of told ≡ wrong_at p (part_with row.now.tag text.now (fields_of run.now))) }
{
    match &row.part {
        BackPart::Value(value) => Ok(text_wrong(value, row.tag, text)),
        BackPart::Group(group) => judge_group(alloc, levels, group, row.tag, text, run),
    }
}

/// A count that can't be read, or a run that doesn't have that many pieces, or what is wrong in one of them.
#[cycle(judge)]
fn judge_group(
    alloc: Global,
    levels: &[BackLevel],
    group: &BackGroup,
    tag: u32,
    text: &[u8],
    run: &[AppField<'_>],
) -> Result<Option<Refused>, NoMem>
    ensures { IfOk result (λ told. (g : Repeat) (inner : Plan) (own : AnyLevel) → group.now.delimiter ≡ g.delimiter → group.now.count ≡ g.count
        → slice_get levels.now group.now.level ≡ Some own → IsLevel levels.now inner own → IsNumbered inner
        → option_map refusal_of told
        ≡ group_wrong g (piece_wrong inner) (part_with tag text.now (fields_of run.now)) (count_read g.count (integer_of text.now))) }
{
    let n = match read_count(&group.count, text) {
        Ok(n) => n,
        Err(why) => return Ok(Some(Refused::Unreadable(tag, why))),
    };
    if !is_run(group.delimiter, n, run) {
        return Ok(Some(Refused::Misgrouped(tag)));
    }
    judge_pieces(alloc, levels, group, run)
}

/// What is wrong in the first piece that is wrong.
#[cycle(judge)]
fn judge_pieces(
    alloc: Global,
    levels: &[BackLevel],
    group: &BackGroup,
    run: &[AppField<'_>],
) -> Result<Option<Refused>, NoMem>
    requires front { (pieces_of group.now.delimiter (fields_of run.now)).front ≡ [] }
    ensures { IfOk result (λ told. (inner : Plan) (own : AnyLevel) → slice_get levels.now group.now.level ≡ Some own → IsLevel levels.now inner own
        → IsNumbered inner → option_map refusal_of told ≡ first (piece_wrong inner) (pieces_of group.now.delimiter (fields_of run.now)).pieces) }
{
    let Some(own) = level_at(levels, group.level) else {
        return Ok(None);
    };
    let mut left = run;
    'pieces: while left.len() > 0 {
        let many = 1 + piece_len(group.delimiter, rest_from(left, 1));
        if let Some(refused) = judge_fields(alloc, levels, own, front(left, many))? {
            return Ok(Some(refused));
        }
        left = rest_from(left, many);
    }
    Ok(None)
}

/// Whether a mark is set.
fn is_marked(marks: &[bool], k: usize) -> bool
    requires { k < length marks.now }
    ensures { result ≡ get_or marks.now k false }
{
    marks[k]
}

/// `n` marks, none of them set.
fn no_marks(alloc: Global, n: usize) -> Result<Vec<bool>, NoMem>
    ensures { IfOk result (λ marks. marks.items ≡ replicate n false) }
{
    Ok(vec![in alloc; false; n]?)
}
