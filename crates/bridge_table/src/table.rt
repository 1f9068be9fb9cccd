ghost use Rattle.std.specs.Prelude.{◌≡◌, [], IfOk, option_map};
ghost use Rattle.schema_facts.specs.InOrder.{IsKindFrom};
ghost use Rattle.bridge_rules.specs.Table.{data_rule, enum_rule, rule_of};
ghost use Rattle.bridge_table.specs.Codes.{datatype_of_row};
ghost use Rattle.bridge_table.specs.Rows.{names_in, rule_with};
ghost use Rattle.schema_facts.specs.InOrder.{IsEnumInOrder};

use crate::composites::composite_rule;
use crate::constants::const_rule;
use crate::datatype::Datatype;
use crate::enums::{enum_rule, set_rule};
use crate::leaves::leaf_rule;
use crate::rule::FieldRule;
use lists::NoMem;
use sbe_types::{DataField, Kind, Leaf, Named};
use std::alloc::Global;

/// The rule by which a part of this kind and the fields of a datatype are translated to each other, if the table has
/// one.
///
/// # Errors
///
/// If memory runs out.
pub fn field_rule(
    alloc: Global,
    kind: &Kind,
    datatype: &Datatype,
) -> Result<Option<FieldRule>, NoMem>
    requires order { IsKindFrom 1 kind.now }
    ensures { IfOk result (λ rule. option_map (rule_with (names_in kind.now)) rule ≡ rule_of kind.now (datatype_of_row datatype.now)) }
{
    match kind {
        Kind::Leaf(leaf) => Ok(leaf_rule(leaf, datatype)),
        Kind::Enum(leaf, names) => listed_rule(alloc, leaf, names.as_slice(), datatype),
        Kind::Set(_, names) => set_rule(alloc, names.as_slice(), datatype),
        Kind::Comp(members) => Ok(composite_rule(members.as_slice(), datatype)),
        Kind::Const(value) => const_rule(alloc, value, datatype),
    }
}

/// The same for data.
pub fn data_rule(part: &DataField, datatype: &Datatype) -> Option<FieldRule>
    ensures { option_map (rule_with []) result ≡ data_rule part.now (datatype_of_row datatype.now) }
{
    match datatype {
        Datatype::Raw => Some(FieldRule::RawData(part.length)),
        Datatype::Text => Some(FieldRule::TextData(part.length)),
        _ => None,
    }
}

/// The rule for an enum of a checked schema.
fn listed_rule(
    alloc: Global,
    leaf: &Leaf,
    names: &[Named],
    datatype: &Datatype,
) -> Result<Option<FieldRule>, NoMem>
    requires order { IsEnumInOrder leaf.now names.now }
    ensures { IfOk result (λ rule. option_map (rule_with names.now) rule ≡ enum_rule leaf.now names.now (datatype_of_row datatype.now)) }
{
    match enum_rule(alloc, leaf, names, datatype)? {
        None => Ok(None),
        Some(rule) => Ok(Some(FieldRule::Enum(rule))),
    }
}
