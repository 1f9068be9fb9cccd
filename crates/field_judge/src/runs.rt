// The runs of groups.
ghost use Rattle.std.specs.Prelude.{◌≡◌, ◌≤◌, ◌<◌, List, length, take, drop, slice_get, Some};
ghost use Rattle.bridge_terms.specs.Parts.{rest_of, run_of};
ghost use Rattle.bridge_terms.specs.Plans.{Plan, is_in, owns};
ghost use Rattle.field_judge.specs.Fields.{fields_of};
ghost use Rattle.field_judge.specs.Levels.{owned_by, IsRowOf};
ghost use Rattle.field_judge.specs.declared.field.AppField.{AppField as AnyField};
ghost use Rattle.field_judge.specs.declared.level.BackLevel.{BackLevel as AnyLevel};

use crate::field::AppField;
use crate::level::{BackPart, BackRow};
use crate::slices::field_at;
use id_tables::IdTable;

/// How many fields after that of a row belong to its run.
pub(crate) fn run_len(row: &BackRow, fields: &[AppField<'_>]) -> usize
    ensures within { result ≤ length fields.now }
    ensures run { (levels : List AnyLevel) (p : Plan) → IsRowOf levels p row.now
        → fields_of (take result fields.now) ≡ run_of (owns p) row.now.tag (fields_of fields.now) }
    ensures rest { (levels : List AnyLevel) (p : Plan) → IsRowOf levels p row.now
        → fields_of (drop result fields.now) ≡ rest_of (owns p) row.now.tag (fields_of fields.now) }
{
    match &row.part {
        BackPart::Value(_) => 0,
        BackPart::Group(group) => owned_len(&group.owned, fields),
    }
}

/// How many fields at the front have one of these tags.
pub fn owned_len(owned: &IdTable, fields: &[AppField<'_>]) -> usize
    ensures within { result ≤ length fields.now }
    ensures run { fields_of (take result fields.now) ≡ run_of (owned_by owned.now) 0 (fields_of fields.now) }
    ensures rest { fields_of (drop result fields.now) ≡ rest_of (owned_by owned.now) 0 (fields_of fields.now) }
{
    for i in 0..fields.len() {
        if !is_owned(owned, fields, i) {
            return i;
        }
    }
    fields.len()
}

/// Whether the tag of field `i` is one of these.
fn is_owned(owned: &IdTable, fields: &[AppField<'_>], i: usize) -> bool
    requires { i < length fields.now }
    ensures { (x : AnyField) → slice_get fields.now i ≡ Some x → result ≡ is_in x.tag owned.now }
{
    match owned.place(field_at(fields, i).tag) {
        None => false,
        Some(_) => true,
    }
}
