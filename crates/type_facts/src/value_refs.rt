ghost use Rattle.std.specs.Prelude.{◌≡◌, option_copied, option_map, option_and_then, find};
ghost use Rattle.std.specs.Str.{bytes_eq};
ghost use Rattle.schema_rules.specs.Names.{referred};
ghost use Rattle.schema_rules.specs.TypeRules.{refers_to_none, referred_number, refers_outside};
ghost use Rattle.type_facts.specs.References.{referred_seen};

use crate::encodings::encoding_named;
use crate::numbers::{is_number_of, value_number};
use crate::types::Types;
use sbe_types::{EnumEl, Prim, TypesItem, ValidValueEl, ValueRef};

/// The valid value that a valueRef refers to, with its enum.
pub fn referred<'a>(
    types: &'a Types,
    value_ref: &ValueRef,
) -> Option<(&'a EnumEl, &'a ValidValueEl)>
    ensures { option_map referred_seen result ≡ referred types.now value_ref.now }
{
    match types.named(value_ref.enum_name.as_slice()) {
        Some(TypesItem::Enum(e)) => match value_named(e, value_ref.value_name.as_slice()) {
            Some(value) => Some((e, value)),
            None => None,
        },
        _ => None,
    }
}

/// The valid value with this name.
fn value_named<'a>(e: &'a EnumEl, name: &[u8]) -> Option<&'a ValidValueEl>
    ensures { option_copied result ≡ find (λ v. bytes_eq name.now v.name) e.now.children }
{
    for value in e.children.as_slice() {
        if name == value.name.as_slice() {
            return Some(value);
        }
    }
    None
}

/// Whether a valueRef refers to nothing.
pub fn refers_to_none(types: &Types, value_ref: &Option<ValueRef>) -> bool
    ensures { result ≡ refers_to_none types.now value_ref.now }
{
    match value_ref {
        Some(value_ref) => referred(types, value_ref).is_none(),
        None => false,
    }
}

/// Whether the number of the valid value that a valueRef refers to isn't one of the primitive.
pub fn refers_outside(types: &Types, prim: Prim, value_ref: &Option<ValueRef>) -> bool
    ensures { result ≡ refers_outside types.now prim value_ref.now }
{
    match value_ref {
        Some(value_ref) => match referred_number(types, value_ref) {
            Some(n) => !is_number_of(prim, n),
            None => true,
        },
        None => false,
    }
}

fn referred_number(types: &Types, value_ref: &ValueRef) -> Option<i128>
    ensures { result ≡ option_and_then (referred_number types.now) (referred types.now value_ref.now) }
{
    match referred(types, value_ref) {
        Some((e, value)) => match encoding_named(types, e.encoding_type.as_slice()) {
            Some(encoding) => value_number(encoding.leaf.prim, value.text.as_slice()),
            None => None,
        },
        None => None,
    }
}
