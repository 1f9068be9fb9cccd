//! The rules, computed on worked schemas: one that is accepted, and one change of it for each rule.

ghost use Rattle.std.specs.Prelude.{◌≡◌, Ok, Err, [], codes};
ghost use Rattle.schema_rules.specs.declared.codes.CCode.TheVariants as rule;
ghost use Rattle.schema_rules.specs.Judging.{refused};
ghost use Rattle.schema_rules.specs.Checked.{checked_of};
ghost use Rattle.schema_rules.specs.Rows.Trees as tree;
ghost use Rattle.schema_rules.specs.Rows.Schemas.{checked};

/// An accepted schema stands for its checked schema.
#[tactic(auto, unfolding(crate::specs::Facts::fact_named, crate::specs::Kinds::kind_named))]
pub fn a_schema_in_order_is_accepted()
    ensures { checked_of tree.in_order ≡ Ok checked }
{}

/// One change for each rule about declared types and the header.
#[tactic(auto, unfolding(crate::specs::Facts::fact_named, crate::specs::Kinds::kind_named))]
pub fn each_rule_on_types_is_asked()
    ensures C01 { checked_of tree.declared_twice ≡ Err (refused rule.DuplicateType (codes "types/messageHeader")) }
    ensures C04 { checked_of tree.endless ≡ Err (refused rule.Cycle (codes "types/Loop")) }
    ensures C05 { checked_of tree.wide_enum ≡ Err (refused rule.BadEncoding (codes "types/E")) }
    ensures C06 { checked_of tree.bit_8_of_8 ≡ Err (refused rule.BadNumber (codes "types/W")) }
    ensures C07 { checked_of tree.value_twice ≡ Err (refused rule.DuplicateValue (codes "types/E")) }
    ensures C10 { checked_of tree.header_without_version ≡ Err (refused rule.BadHeader (codes "types/messageHeader")) }
{}

/// One change for each rule about messages and their parts.
#[tactic(auto, unfolding(crate::specs::Facts::fact_named, crate::specs::Kinds::kind_named))]
pub fn each_rule_on_parts_is_asked()
    ensures C02 { checked_of tree.unknown_type ≡ Err (refused rule.UnknownType (codes "messages/Ping.a")) }
    ensures C03 { checked_of tree.double_field ≡ Err (refused rule.Float (codes "messages/Ping.a")) }
    ensures C08 { checked_of tree.overlapping ≡ Err (refused rule.Offset (codes "messages/Ping.b")) }
    ensures C09 { checked_of tree.short_block ≡ Err (refused rule.BlockShort (codes "messages/Ping")) }
    ensures C11 { checked_of tree.header_as_dimension ≡ Err (refused rule.BadDimension (codes "messages/Grp.g")) }
    ensures C12 { checked_of tree.number_as_data ≡ Err (refused rule.BadData (codes "messages/Nest.legs.note")) }
    ensures C13 { checked_of tree.named_twice ≡ Err (refused rule.DuplicateName (codes "messages/Ping.a")) }
    ensures C14 { checked_of tree.field_behind_group ≡ Err (refused rule.Order (codes "messages/Nest.legs.q")) }
    ensures C15 { checked_of tree.later_than_schema ≡ Err (refused rule.Since (codes "messages/Ping.b")) }
    ensures C16 { checked_of tree.empty_entries ≡ Err (refused rule.EmptyGroup (codes "messages/Grp.g")) }
    ensures C17 { checked_of tree.seven_groups ≡ Err (refused rule.Depth (codes "messages/Dp.g1.g2.g3.g4.g5.g6.g7")) }
    ensures C18 { checked_of tree.id_of_three_bytes ≡ Err (refused rule.Width (codes "messages/Ping")) }
    ensures C19 { checked_of tree.constant_without_value ≡ Err (refused rule.Presence (codes "messages/Ping.a")) }
{}
