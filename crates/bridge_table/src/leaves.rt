ghost use Rattle.std.specs.Prelude.{◌≡◌, [], option_map};
ghost use Rattle.sbe_types.specs.Shown.{is_optional};
ghost use Rattle.bridge_rules.specs.Table.{leaf_rule, text_rule, is_array, is_byte_type, is_char_leaf, is_integer, is_number, is_optional_byte, is_single_byte};
ghost use Rattle.bridge_table.specs.Codes.{datatype_of_row};
ghost use Rattle.bridge_table.specs.Rows.{rule_with};

use crate::codes::is_char;
use crate::datatype::Datatype;
use crate::rule::FieldRule;
use sbe_types::{Leaf, LeafShape, Presence, Prim};

/// The rule for a leaf and the fields of a datatype, if the table has one.
pub fn leaf_rule(leaf: &Leaf, datatype: &Datatype) -> Option<FieldRule>
    ensures { option_map (rule_with []) result ≡ leaf_rule leaf.now (datatype_of_row datatype.now) }
{
    match datatype {
        Datatype::WholeNumber if is_integer(leaf) => Some(FieldRule::Integer(*leaf)),
        Datatype::DecimalNumber if is_integer(leaf) => Some(FieldRule::IntegerDecimal(*leaf)),
        Datatype::CalendarDay if is_integer(leaf) => Some(FieldRule::DayCount(*leaf)),
        Datatype::Character if is_char_leaf(leaf) => Some(FieldRule::SingleChar(*leaf)),
        Datatype::Text => text_rule(leaf),
        _ => None,
    }
}

/// A character or an array of them, among texts.
fn text_rule(leaf: &Leaf) -> Option<FieldRule>
    ensures { option_map (rule_with []) result ≡ text_rule leaf.now }
{
    if is_char_leaf(leaf) {
        return Some(FieldRule::SingleChar(*leaf));
    }
    if !is_array(leaf.shape) {
        return None;
    }
    Some(FieldRule::CharArray(*leaf))
}

/// Whether the leaf is a single integer.
pub fn is_integer(leaf: &Leaf) -> bool
    ensures { result ≡ is_integer leaf.now }
{
    is_number(leaf.shape) && !is_char(leaf.prim)
}

fn is_char_leaf(leaf: &Leaf) -> bool
    ensures { result ≡ is_char_leaf leaf.now }
{
    is_number(leaf.shape) && is_char(leaf.prim)
}

fn is_number(shape: LeafShape) -> bool
    ensures { result ≡ is_number shape }
{
    match shape {
        LeafShape::Number => true,
        LeafShape::RangedText | LeafShape::EncodedText | LeafShape::Octets | LeafShape::Numbers =>
            false,
    }
}

fn is_array(shape: LeafShape) -> bool
    ensures { result ≡ is_array shape }
{
    match shape {
        LeafShape::RangedText | LeafShape::EncodedText => true,
        LeafShape::Number | LeafShape::Octets | LeafShape::Numbers => false,
    }
}

/// Whether the leaf is a single uint8.
pub fn is_single_byte(leaf: &Leaf) -> bool
    ensures { result ≡ is_single_byte leaf.now }
{
    is_number(leaf.shape) && is_byte_type(leaf.prim)
}

fn is_byte_type(prim: Prim) -> bool
    ensures { result ≡ is_byte_type prim }
{
    match prim {
        Prim::U8 => true,
        Prim::Char
        | Prim::I8
        | Prim::I16
        | Prim::I32
        | Prim::I64
        | Prim::U16
        | Prim::U32
        | Prim::U64 => false,
    }
}

/// Whether the leaf is a single uint8 that may be null.
pub fn is_optional_byte(leaf: &Leaf) -> bool
    ensures { result ≡ is_optional_byte leaf.now }
{
    is_single_byte(leaf) && is_optional(leaf.presence)
}

/// Whether a value with this presence may be null.
pub fn is_optional(presence: Presence) -> bool
    ensures { result ≡ is_optional presence }
{
    match presence {
        Presence::Optional => true,
        Presence::Required | Presence::Constant => false,
    }
}
