ghost use Rattle.std.specs.Prelude.{◌≡◌, ◌||◌, ◌<◌, map, codes, length, is_none, slice_get, Some};
ghost use Rattle.id_tables.specs.Places.{place_of};
ghost use Rattle.map_members.specs.Lent.{lent_members};
ghost use Rattle.map_rules.specs.Verdicts.{first_broken, list_verdict, Answers};
ghost use Rattle.map_rules.specs.Rules.{of_length, length_or_zero, stands_earlier, is_framing, is_other, is_other_at, field_rules};

use crate::rule::{Rule, first_broken, refuse_at};
use crate::tables::Tables;
use map_links::Ids;
use map_types::{FieldEl, MCode, MapErr};
use std::alloc::Global;

/// Checks the fields one after another.
pub fn judge_fields(
    alloc: Global,
    ids: &Ids,
    tables: &Tables,
    fields: &[&FieldEl],
) -> Result<(), MapErr>
    requires ids { ids.now.fields ≡ map (λ f. f.now.id) fields.now }
    requires lengths { tables.now.lengths ≡ map (λ f. length_or_zero f.now.length_id) fields.now }
    ensures { Answers result (list_verdict (codes "fields") (field_rules ids.now tables.now (lent_members fields.now)) 0 (lent_members fields.now)) }
{
    for (i, field) in fields.iter().enumerate() {
        refuse_at(
            alloc,
            "fields",
            i,
            field_broken(ids, tables, fields, i, field),
        )?;
    }
    Ok(())
}

/// The first rule that the field at an index breaks.
fn field_broken(
    ids: &Ids,
    tables: &Tables,
    fields: &[&FieldEl],
    i: usize,
    field: &FieldEl,
) -> Option<MCode>
    requires id { slice_get ids.now.fields i ≡ Some field.now.id }
    requires length { slice_get tables.now.lengths i ≡ Some (length_or_zero field.now.length_id) }
    ensures { result ≡ first_broken (field_rules ids.now tables.now (lent_members fields.now) i field.now) }
{
    let again = ids.fields.is_again(i);
    let known = tables.is_type(field.type_name.as_slice());
    first_broken(&[
        Rule {
            code: MCode::Duplicate,
            broken: again,
        },
        Rule {
            code: MCode::Duplicate,
            broken: is_length_again(tables, i, field.length_id),
        },
        Rule {
            code: MCode::UnknownReference,
            broken: is_length_unknown(ids, field.length_id),
        },
        Rule {
            code: MCode::Datatype,
            broken: !known,
        },
        Rule {
            code: MCode::Datatype,
            broken: frames_a_message(field),
        },
        Rule {
            code: MCode::Datatype,
            broken: is_length_other(ids, fields, field.length_id),
        },
    ])
}

/// Whether a lengthId occurs earlier.
fn is_length_again(tables: &Tables, i: usize, length_id: Option<u32>) -> bool
    requires { slice_get tables.now.lengths i ≡ Some (length_or_zero length_id) }
    ensures { result ≡ of_length (stands_earlier tables.now.lengths i) length_id }
{
    match length_id {
        None => false,
        Some(_) => tables.lengths.is_again(i),
    }
}

/// Whether a lengthId refers to no field.
fn is_length_unknown(ids: &Ids, length_id: Option<u32>) -> bool
    ensures { result ≡ of_length (λ id. is_none (place_of id ids.now.fields)) length_id }
{
    match length_id {
        None => false,
        Some(id) => ids.fields.place(id).is_none(),
    }
}

/// Whether a field with a lengthId, or that lengthId, frames a message.
fn frames_a_message(field: &FieldEl) -> bool
    ensures { result ≡ of_length (λ id. is_framing field.now.id || is_framing id) field.now.length_id }
{
    match field.length_id {
        None => false,
        Some(id) => is_framing(field.id) || is_framing(id),
    }
}

/// Whether a tag is that of BeginString, BodyLength, CheckSum or MsgType.
fn is_framing(id: u32) -> bool
    ensures { result ≡ is_framing id }
{
    id == 8 || (id == 9 || (id == 10 || id == 35))
}

/// Whether a lengthId refers to a field whose type isn't Length.
fn is_length_other(ids: &Ids, fields: &[&FieldEl], length_id: Option<u32>) -> bool
    ensures { result ≡ of_length (λ id. is_other_at (lent_members fields.now) (place_of id ids.now.fields)) length_id }
{
    match length_id {
        None => false,
        Some(id) => match ids.fields.place(id) {
            None => false,
            Some(j) => is_other_at(fields, j),
        },
    }
}

/// Whether the type of the field at an index isn't Length.
fn is_other_at(fields: &[&FieldEl], j: usize) -> bool
    ensures { result ≡ is_other_at (lent_members fields.now) (Some j) }
{
    match fields.get(j) {
        None => false,
        Some(field) => is_other(field),
    }
}

fn is_other(field: &FieldEl) -> bool
    ensures { result ≡ is_other (Some field.now) }
{
    field.type_name.as_slice() != "Length".as_bytes()
}
