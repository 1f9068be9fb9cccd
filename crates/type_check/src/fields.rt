ghost use Rattle.std.specs.Prelude.{◌≡◌, false, Some, OnOk};
ghost use Rattle.sbe_types.specs.declared.tree.TypesItem.TheVariants as item;
ghost use Rattle.schema_rules.specs.Judging.{Gives, first_of};
ghost use Rattle.schema_rules.specs.Names.{is_among, type_named};
ghost use Rattle.schema_rules.specs.Kinds.{effective};
ghost use Rattle.schema_rules.specs.Facts.{field_fact};
ghost use Rattle.schema_rules.specs.PartRules.{is_bad_type, has_bad_text_in, has_bad_text, presence_in, refers_elsewhere, is_bad_code, has_bad_presence, field_rules, field_head, field_check};

use crate::composites::begins_early;
use crate::heads::judge_head;
use crate::name_table::NameTable;
use crate::refusals::refuse;
use crate::type_rules::{is_bad_constant, is_bad_text};
use crate::value_rules::names_fraction;
use sbe_types::{FieldEl, Presence, TypeEl, TypesItem, ValueRef};
use schema_rules::{CCode, CheckErr, Encoding, Fact, LevelFacts, LevelScope, PartClass, PartHead};
use std::alloc::Global;
use type_facts::{
    Declarations, UNKNOWN, effective, encoding_named, enum_fact, integral, refers_to_none,
    set_fact, type_fact,
};

/// Checks a field of a level.
pub fn judge_field(
    alloc: Global,
    known: &Declarations,
    level: LevelScope,
    names: &NameTable,
    all: LevelFacts,
    field: &FieldEl,
) -> Result<(), CheckErr>
    ensures judged { Gives result (field_check (record { types = known.now; level = level }) (record { names = names.now; all = all }) field.now) }
    ensures new { OnOk result (is_among names.now field.now.name ≡ false) }
{
    let fact = field_fact(known, field);
    judge_type_of(alloc, known, all.reached, fact, field)?;
    let head = PartHead {
        class: PartClass::Field,
        since: field.since_version,
        is_fixed: fact.is_fixed,
    };
    judge_head(alloc, level, names, all, field.name.as_slice(), head)?;
    if has_bad_presence(known, field) {
        return refuse(alloc, CCode::Presence);
    }
    Ok(())
}

/// Applies the rules for a field's type and offset.
fn judge_type_of(
    alloc: Global,
    known: &Declarations,
    reached: u64,
    fact: Fact,
    field: &FieldEl,
) -> Result<(), CheckErr>
    ensures { fact ≡ field_fact known.now field.now → Gives result (first_of (field_rules known.now reached field.now)) }
{
    let name = field.type_name.as_slice();
    if known.types().named(name).is_none() || refers_to_none(known.types(), &field.value_ref) {
        return refuse(alloc, CCode::UnknownType);
    }
    if names_fraction(known.types(), name) {
        return refuse(alloc, CCode::Float);
    }
    if has_bad_text(known, field) {
        return refuse(alloc, CCode::BadNumber);
    }
    if begins_early(reached, field.offset, fact) {
        return refuse(alloc, CCode::Offset);
    }
    if fact.holds_empty {
        return refuse(alloc, CCode::BadData);
    }
    Ok(())
}

/// The facts of a field, whose own presence overrides its type's.
pub fn field_fact(known: &Declarations, field: &FieldEl) -> Fact
    ensures { result ≡ field_fact known.now field.now }
{
    match known.types().named(field.type_name.as_slice()) {
        Some(TypesItem::Type(t)) => type_fact(field.presence, t),
        Some(TypesItem::Enum(e)) => enum_fact(known.types(), field.presence, e),
        Some(TypesItem::Set(s)) => set_fact(known.types(), s),
        Some(TypesItem::Composite(_)) => known.fact_named(field.type_name.as_slice()),
        None => UNKNOWN,
    }
}

/// Whether the text of a constant field's type isn't a value of the type.
fn has_bad_text(known: &Declarations, field: &FieldEl) -> bool
    ensures { result ≡ has_bad_text field.now (type_named known.now field.now.type_name) }
{
    match known.types().named(field.type_name.as_slice()) {
        Some(TypesItem::Type(t)) => has_bad_text_in(field, t),
        _ => false,
    }
}

fn has_bad_text_in(field: &FieldEl, t: &TypeEl) -> bool
    ensures { result ≡ has_bad_text field.now (Some (item.Type t.now)) }
{
    match integral(t.primitive_type) {
        Some(prim) => {
            effective(field.presence, t.presence) == Presence::Constant
                && is_bad_text(prim, &t.text)
        }
        None => false,
    }
}

/// Whether a constant has no value or two, or something that isn't constant has a valueRef.
fn has_bad_presence(known: &Declarations, field: &FieldEl) -> bool
    ensures { result ≡ has_bad_presence known.now field.now (type_named known.now field.now.type_name) }
{
    match known.types().named(field.type_name.as_slice()) {
        Some(TypesItem::Type(t)) => is_bad_type(field, t, effective(field.presence, t.presence)),
        Some(TypesItem::Enum(e)) => is_bad_code(
            effective(
                field.presence,
                presence_in(encoding_named(known.types(), e.encoding_type.as_slice())),
            ),
            e.name.as_slice(),
            &field.value_ref,
        ),
        Some(TypesItem::Set(_)) | Some(TypesItem::Composite(_)) => {
            effective(field.presence, None) == Presence::Constant || field.value_ref.is_some()
        }
        None => false,
    }
}

fn is_bad_type(field: &FieldEl, t: &TypeEl, presence: Presence) -> bool
    ensures { result ≡ is_bad_type field.now t.now presence }
{
    match presence {
        Presence::Constant => match &field.value_ref {
            Some(_) => is_bad_constant(presence, &t.text, &field.value_ref),
            None => is_bad_constant(presence, &t.text, &t.value_ref),
        },
        Presence::Required | Presence::Optional => field.value_ref.is_some(),
    }
}

fn presence_in(encoding: Option<Encoding>) -> Option<Presence>
    ensures { result ≡ presence_in encoding }
{
    match encoding {
        Some(e) => e.presence,
        None => None,
    }
}

/// Whether a constant enum has no valueRef into it, or something that isn't constant has a valueRef.
fn is_bad_code(presence: Presence, name: &[u8], value_ref: &Option<ValueRef>) -> bool
    ensures { result ≡ is_bad_code presence name.now value_ref.now }
{
    match presence {
        Presence::Constant => refers_elsewhere(name, value_ref),
        Presence::Required | Presence::Optional => value_ref.is_some(),
    }
}

fn refers_elsewhere(name: &[u8], value_ref: &Option<ValueRef>) -> bool
    ensures { result ≡ refers_elsewhere name.now value_ref.now }
{
    match value_ref {
        Some(value_ref) => value_ref.enum_name.as_slice() != name,
        None => true,
    }
}
