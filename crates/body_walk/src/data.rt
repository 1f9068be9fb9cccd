// Data parts.
ghost use Rattle.std.specs.Prelude.{◌≡◌, ◌≤◌, ◌+◌, length, IfSome, IfNone};
ghost use Rattle.std.specs.List.{AllByRecursion};
ghost use Rattle.sbe_types.specs.declared.limits.TheConstants.{PART_LIMIT};
ghost use Rattle.schema_facts.specs.Measured.{IsSmall};
ghost use Rattle.body_walk.specs.inner.Cursor.{data_end, parts_end};
ghost use Rattle.body_walk.specs.inner.Outcomes.{place_or_fault};

use crate::found::Found;
use layout_tables::PartRow;
use sbe_types::Step;
use sbe_wire::{FCode, Mode};
use var_data::{DataErr, read_data_of};

/// Walks data parts from an offset on. The first one is part `first` of its level.
pub(crate) fn walk_parts(
    mode: Mode,
    rows: &[PartRow],
    first: usize,
    body: &[u8],
    at: usize,
    out: &mut Found,
) -> Option<usize>
    requires small { AllByRecursion (λ r. IsSmall r.length.prim) rows.now }
    requires few { first + length rows.now ≤ PART_LIMIT }
    requires at { at ≤ length body.now }
    ensures told { place_or_fault result out.new ≡ parts_end mode first rows.now body.now at }
    ensures within { IfSome result (λ next. next ≤ length body.now) }
    ensures low { IfNone result (length out.new.path ≤ 1) }
{
    let mut at = at;
    for i in 0..rows.len() {
        match walk_data(mode, &rows[i], body, at, out) {
            Some(next) => at = next,
            None => {
                out.under(Step::Part((first + i) as u32));
                return None;
            }
        }
    }
    Some(at)
}

/// Walks a data part from an offset on.
fn walk_data(mode: Mode, row: &PartRow, body: &[u8], at: usize, out: &mut Found) -> Option<usize>
    requires small { IsSmall row.now.length.prim }
    requires at { at ≤ length body.now }
    ensures told { place_or_fault result out.new ≡ data_end mode row.now body.now at }
    ensures within { IfSome result (λ next. next ≤ length body.now) }
    ensures low { IfNone result (length out.new.path ≡ 0) }
{
    if row.since > mode.version {
        return Some(at);
    }
    match read_data_of(mode.order, &row.length, body, at) {
        Ok(range) => Some(range.1),
        Err(DataErr::Truncated { needed }) => {
            out.tell(FCode::Truncated, at, needed as i128);
            None
        }
        Err(DataErr::Length(length)) => {
            out.tell(FCode::Length, at, length as i128);
            None
        }
    }
}
