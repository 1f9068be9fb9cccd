// The fields and data of a block.
ghost use Rattle.std.specs.Prelude.{◌≡◌, ◌≤◌, ℕ, List, length, get_or, slice_get, IfOk, Some};
ghost use Rattle.sbe_types.specs.declared.message.Value.{Value as AnyValue, Text};
ghost use Rattle.sbe_types.specs.declared.message.DataVal.TheVariants.{Bytes};
ghost use Rattle.bridge_terms.specs.Gathering.{text_at, value_found};
ghost use Rattle.bridge_terms.specs.Plans.{Plan, Slot};
ghost use Rattle.field_judge.specs.Heads.{heads, slot_head};
ghost use Rattle.field_judge.specs.declared.level.BackLevel.{BackLevel as AnyLevel};
ghost use Rattle.field_blocks.specs.Found.{parts_in, AreFound, HoldsData, HoldsFields};

use crate::reading::{bytes_of, read_slot};
use field_judge::{AppField, BackLevel};
use lists::{List, NoMem};
use sbe_types::{DataFieldList, DataVal, DataValList, FieldList, Value, ValueList};
use std::alloc::Global;

/// The values of a level's fields.
pub(crate) fn field_values(
    alloc: Global,
    back: &BackLevel,
    own: &FieldList,
    places: &[usize],
    fields: &[AppField<'_>],
) -> Result<ValueList, NoMem>
    requires many { length places.now ≡ length back.now.rows }
    requires within { (k : ℕ) → get_or places.now k 0 ≤ length fields.now }
    ensures size { IfOk result (λ values. length values ≡ length own.now) }
    ensures held { IfOk result (λ values. (levels : List AnyLevel) (p : Plan) → AreFound levels p back.now places.now fields.now
        → HoldsFields p (parts_in p fields.now) own.now values) }
{
    let mut values = List::new(alloc);
    for i in 0..own.len() {
        let value = field_value(alloc, back, own.at(i).id, places, fields)?;
        values.push(value)?;
    }
    Ok(values)
}

/// The value of the field with this id.
fn field_value(
    alloc: Global,
    back: &BackLevel,
    id: u32,
    places: &[usize],
    fields: &[AppField<'_>],
) -> Result<Value, NoMem>
    requires many { length places.now ≡ length back.now.rows }
    requires within { (k : ℕ) → get_or places.now k 0 ≤ length fields.now }
    ensures { IfOk result (λ value. (levels : List AnyLevel) (p : Plan) (k : ℕ) (s : Slot) (found : AnyValue)
        → AreFound levels p back.now places.now fields.now → slice_get (heads p) k ≡ Some (slot_head s) → id ≡ s.tag
        → value_found s.rule (text_at s.tag (parts_in p fields.now)) ≡ Some found → value ≡ found) }
{
    match read_slot(back, id, places, fields) {
        None => Ok(Value::Absent),
        Some(read) => read.value(alloc),
    }
}

/// The data of a level.
pub(crate) fn data_values(
    alloc: Global,
    back: &BackLevel,
    own: &DataFieldList,
    places: &[usize],
    fields: &[AppField<'_>],
) -> Result<DataValList, NoMem>
    requires many { length places.now ≡ length back.now.rows }
    requires within { (k : ℕ) → get_or places.now k 0 ≤ length fields.now }
    ensures size { IfOk result (λ values. length values ≡ length own.now) }
    ensures held { IfOk result (λ values. (levels : List AnyLevel) (p : Plan) → AreFound levels p back.now places.now fields.now
        → HoldsData p (parts_in p fields.now) own.now values) }
{
    let mut values = List::new(alloc);
    for i in 0..own.len() {
        let value = data_value(alloc, back, own.at(i).id, places, fields)?;
        values.push(value)?;
    }
    Ok(values)
}

/// The data with this id.
fn data_value(
    alloc: Global,
    back: &BackLevel,
    id: u32,
    places: &[usize],
    fields: &[AppField<'_>],
) -> Result<DataVal, NoMem>
    requires many { length places.now ≡ length back.now.rows }
    requires within { (k : ℕ) → get_or places.now k 0 ≤ length fields.now }
    ensures { IfOk result (λ value. (levels : List AnyLevel) (p : Plan) (k : ℕ) (s : Slot) (bytes : List ℕ)
        → AreFound levels p back.now places.now fields.now → slice_get (heads p) k ≡ Some (slot_head s) → id ≡ s.tag
        → value_found s.rule (text_at s.tag (parts_in p fields.now)) ≡ Some (Text bytes) → value ≡ Bytes bytes) }
{
    let Some(read) = read_slot(back, id, places, fields) else {
        return Ok(DataVal::Absent);
    };
    match bytes_of(read) {
        None => Ok(DataVal::Absent),
        Some(bytes) => Ok(DataVal::Bytes(List::from_slice(alloc, bytes)?)),
    }
}
