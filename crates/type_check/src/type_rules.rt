ghost use Rattle.std.specs.Prelude.{◌≡◌, not, ◌||◌, map, is_none, IfOk, length};
ghost use Rattle.std.specs.List.{list_any};
ghost use Rattle.std.specs.Ordering.{int_eq};
ghost use Rattle.sbe_types.specs.Numbers.{prim_width};
ghost use Rattle.schema_rules.specs.Judging.{Gives, first_of};
ghost use Rattle.schema_rules.specs.Ranges.{value_number, bit_number};
ghost use Rattle.schema_rules.specs.Names.{is_fraction, names_fraction, type_named};
ghost use Rattle.schema_rules.specs.Kinds.{valid_value, choice};
ghost use Rattle.schema_rules.specs.TypeRules.{is_empty_elsewhere, is_out, is_bad_text, has_bad_number_over, has_bad_number, is_bad_constant, type_rules, type_constant_rules};

use crate::refusals::refuse;
use lists::Text;
use sbe_types::{Presence, Prim, PrimitiveType, TypeEl, ValueRef};
use schema_rules::{CCode, CheckErr};
use std::alloc::Global;
use type_facts::{
    Types, effective, high_of, integral, is_number_of, low_of, number_in, refers_outside,
    refers_to_none,
};

/// Applies the rules for a `type` that are tried first.
pub fn judge_type(alloc: Global, types: &Types, is_member: bool, t: &TypeEl) -> Result<(), CheckErr>
    ensures { Gives result (first_of (type_rules types.now is_member t.now)) }
{
    if refers_to_none(types, &t.value_ref) {
        return refuse(alloc, CCode::UnknownType);
    }
    if is_fraction(t.primitive_type) {
        return refuse(alloc, CCode::Float);
    }
    if is_empty_elsewhere(is_member, t) {
        return refuse(alloc, CCode::BadEncoding);
    }
    if has_bad_number(types, t) {
        return refuse(alloc, CCode::BadNumber);
    }
    Ok(())
}

/// Applies the rule for a `type` that is tried last.
pub fn judge_type_constant(alloc: Global, t: &TypeEl) -> Result<(), CheckErr>
    ensures { Gives result (first_of (type_constant_rules t.now)) }
{
    if is_bad_constant(effective(None, t.presence), &t.text, &t.value_ref) {
        return refuse(alloc, CCode::Presence);
    }
    Ok(())
}

fn is_fraction(primitive: PrimitiveType) -> bool
    ensures { result ≡ is_fraction primitive }
{
    match primitive {
        PrimitiveType::Integral(_) => false,
        PrimitiveType::Float | PrimitiveType::Double => true,
    }
}

/// Whether it has length 0 and isn't the bytes of a data part.
fn is_empty_elsewhere(is_member: bool, t: &TypeEl) -> bool
    ensures { result ≡ is_empty_elsewhere is_member t.now }
{
    t.length == 0 && !(is_member && t.name.as_slice() == "varData".as_bytes())
}

fn has_bad_number(types: &Types, t: &TypeEl) -> bool
    ensures { result ≡ has_bad_number types.now t.now }
{
    match integral(t.primitive_type) {
        Some(prim) => has_bad_number_over(types, t, prim),
        None => false,
    }
}

fn has_bad_number_over(types: &Types, t: &TypeEl, prim: Prim) -> bool
    ensures { result ≡ has_bad_number_over types.now t.now prim }
{
    is_out(prim, t.null_value)
        || is_out(prim, t.min_value)
        || is_out(prim, t.max_value)
        || low_of(prim, t) > high_of(prim, t)
        || (effective(None, t.presence) == Presence::Constant && is_bad_text(prim, &t.text))
        || refers_outside(types, prim, &t.value_ref)
}

/// Whether a stated number isn't one of the primitive.
fn is_out(prim: Prim, stated: Option<i128>) -> bool
    ensures { result ≡ is_out prim stated }
{
    match stated {
        Some(n) => !is_number_of(prim, n),
        None => false,
    }
}

/// Whether a constant's text isn't a value. For char every text is one.
pub fn is_bad_text(prim: Prim, text: &Option<Text>) -> bool
    ensures { result ≡ is_bad_text prim text.now }
{
    match text {
        Some(text) => prim != Prim::Char && number_in(prim, text.as_slice()).is_none(),
        None => false,
    }
}

/// Whether a constant has no value or two, or something that isn't constant has a valueRef.
pub fn is_bad_constant(
    presence: Presence,
    text: &Option<Text>,
    value_ref: &Option<ValueRef>,
) -> bool
    ensures { result ≡ is_bad_constant presence text.now value_ref.now }
{
    match presence {
        Presence::Constant => text.is_some() == value_ref.is_some(),
        Presence::Required | Presence::Optional => value_ref.is_some(),
    }
}
