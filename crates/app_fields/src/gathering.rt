// Application fields.
ghost use Rattle.std.specs.Prelude.{◌≡◌, ◌≤◌, ◌-◌, ◌∷◌, ◌++◌, ◌||◌, [], List, drop, length, take, IfOk, OnOk};
ghost use Rattle.tagvalue_codec.specs.Fields.{bytes_of, Field};
ghost use Rattle.tagvalue_codec.specs.Reading.{placed};
ghost use Rattle.bridge_terms.specs.Parts.{application_fields, TagLists};
ghost use Rattle.bridge_terms.specs.Plans.{is_in};
ghost use Rattle.bridge_plan.specs.Covers.{length_tags};
ghost use Rattle.field_judge.specs.Fields.{fields_of};
ghost use Rattle.bridge_mapping.specs.Tables.{HaveSameTags};
ghost use Rattle.app_fields.specs.Held.{HoldsFields};

use bridge_mapping::TagTable;
use field_judge::AppField;
use lists::NoMem;
use std::alloc::Global;
use tagvalue_codec::{FieldTable, FixField};

/// The application fields of a text: those whose tags aren't of the header or of length fields. Requires a table
/// that holds the fields of the text.
///
/// # Errors
///
/// If memory runs out.
pub fn app_fields<'a>(
    alloc: Global,
    text: &'a [u8],
    table: &FieldTable,
    tags: &TagTable,
) -> Result<Vec<AppField<'a>>, NoMem>
    requires { HoldsFields text.now table.now }
    ensures { IfOk result (λ own. (fields : List Field) (lists : TagLists) → text.now ≡ bytes_of fields → table.now ≡ placed 0 fields → HaveSameTags tags.now lists
        → fields_of own.items ≡ application_fields lists fields) }
{
    let mut own = Vec::new(alloc);
    for i in 0..table.len() {
        keep(&mut own, text, &table.field(i), tags)?;
    }
    Ok(own)
}

/// Keeps a field if it is an application field.
fn keep<'a>(
    own: &mut Vec<AppField<'a>>,
    text: &'a [u8],
    field: &FixField,
    tags: &TagTable,
) -> Result<(), NoMem>
    requires order { field.now.from ≤ field.now.to }
    requires within { field.now.to ≤ length text.now }
    ensures { OnOk result ((f : Field) (lists : TagLists) → field.now.tag ≡ f.tag
        → take (field.now.to - field.now.from) (drop field.now.from text.now) ≡ f.value → HaveSameTags tags.now lists
        → fields_of own.new.items ≡ fields_of own.old.items ++ application_fields lists (f ∷ [])) }
{
    if is_passed(tags, field.tag) {
        return Ok(());
    }
    own.push(AppField {
        tag: field.tag,
        text: value_at(text, field),
    })?;
    Ok(())
}

/// Whether a tag is one of the header or of a length field.
fn is_passed(tags: &TagTable, tag: u32) -> bool
    ensures { (lists : TagLists) → HaveSameTags tags.now lists → result ≡ is_in tag lists.header || is_in tag (length_tags lists) }
{
    if tags.is_header(tag) {
        return true;
    }
    tags.is_length(tag)
}

/// The value of a field of a text. Requires a range within the text.
pub fn value_at<'a>(text: &'a [u8], field: &FixField) -> &'a [u8]
    requires order { field.now.from ≤ field.now.to }
    requires within { field.now.to ≤ length text.now }
    ensures { result.now ≡ take (field.now.to - field.now.from) (drop field.now.from text.now) }
{
    &text[field.from..field.to]
}
