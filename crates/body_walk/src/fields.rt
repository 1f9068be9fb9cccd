// The fields of a block.
ghost use Rattle.std.specs.Prelude.{◌≡◌, ◌≤◌, ◌<◌, ◌+◌, ◌^◌, false, length};
ghost use Rattle.sbe_types.specs.declared.limits.TheConstants.{PART_LIMIT};
ghost use Rattle.body_walk.specs.inner.Outcomes.{fault_unless, piece};
ghost use Rattle.body_walk.specs.inner.Fields.{field_check, fields_check, AreFieldRows, IsFieldRow};

use crate::found::Found;
use crate::kinds::judge_part;
use crate::looks::shows_at_once;
use layout_tables::FieldRow;
use sbe_types::Field;
use sbe_wire::Mode;

/// Checks the fields of a block that begins at an offset of the body. If one has no valid value, `out` receives the
/// first fault.
#[inline(always)]
pub(crate) fn judge_fields(
    mode: Mode,
    rows: &[FieldRow],
    fields: &[Field],
    at: usize,
    block: &[u8],
    out: &mut Found,
) -> bool
    requires rows { AreFieldRows mode.version (length block.now) fields.now rows.now }
    requires few { length fields.now ≤ PART_LIMIT }
    requires near { at + length block.now < 2 ^ 64 }
    ensures told { fault_unless result out.new ≡ fields_check mode (piece at block.now) 0 fields.now rows.now }
    ensures low { result ≡ false → length out.new.path ≤ 6 }
{
    for i in 0..fields.len() {
        if !judge_field(mode, &rows[i], &fields[i], i as u32, at, block, out) {
            return false;
        }
    }
    true
}

/// Checks field `i`, if the version has it and it isn't a constant.
#[inline(always)]
#[tactic(auto, using(crate::proofs::AtOnce::part_looks))]
fn judge_field(
    mode: Mode,
    row: &FieldRow,
    field: &Field,
    i: u32,
    at: usize,
    block: &[u8],
    out: &mut Found,
) -> bool
    requires row { IsFieldRow mode.version (length block.now) field.now row.now }
    requires near { at + length block.now < 2 ^ 64 }
    ensures told { fault_unless result out.new ≡ field_check mode (piece at block.now) i field.now row.now }
    ensures low { result ≡ false → length out.new.path ≤ 6 }
{
    if row.since > mode.version || row.is_constant {
        return true;
    }
    let begin = row.place as usize;
    let part = &block[begin..row.end as usize];
    if shows_at_once(mode, &field.kind, part) {
        return true;
    }
    judge_part(mode, &field.kind, i, at + begin, part, out)
}
