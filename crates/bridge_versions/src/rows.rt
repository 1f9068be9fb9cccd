//! The definitions, computed on worked rows.

ghost use Rattle.std.specs.Prelude.{◌≡◌, ◌∷◌, [], true, false, pos, codes, None, Some, Ok, Err};
ghost use Rattle.sbe_types.specs.declared.kind.ConstValue.TheVariants as const;
ghost use Rattle.sbe_types.specs.declared.kind.Kind.{Const};
ghost use Rattle.sbe_types.specs.declared.kind.Presence.TheVariants.{Required, Optional};
ghost use Rattle.sbe_types.specs.declared.message.GroupVal.TheVariants.{Absent, Entries};
ghost use Rattle.sbe_wire.specs.Reading.{message_of};
ghost use Rattle.sbe_wire.specs.Rows.Schemas.{data_of, int32, size16};
ghost use Rattle.fix_values.specs.declared.rule.V.TheVariants.{Range};
ghost use Rattle.bridge_rules.specs.Again.{has_far_exponent};
ghost use Rattle.bridge_terms.specs.Gathering.{values_of_fields};
ghost use Rattle.bridge_terms.specs.MessageFields.{fields_of, no_text_at};
ghost use Rattle.bridge_terms.specs.WayBack.{back_refused, missing};
ghost use Rattle.bridge_terms.specs.Blocks.{values_of};
ghost use Rattle.bridge_plan.specs.Rows.{plan_for, tagged, text8_kind};
ghost use Rattle.bridge_versions.specs.Needed.{is_needed, has_needed};
ghost use Rattle.bridge_versions.specs.Received.{SomeValue, IsFarAt};
ghost use Rattle.bridge_versions.specs.Rows.{side, flags, quantity, later_quantity, later_side, decimal_of, grown_by, grown};
ghost use Rattle.bridge_versions.specs.Rows.{grouped_by, size_from_1, with_data, some_data};
ghost use Rattle.bridge_versions.specs.Rows.{grown_schema, named_alone, of_fields, of_group, no_data, early, early_message, early_body};
ghost use Rattle.bridge_versions.specs.Rows.{power_rule, power_plan, power_text, power, one_power};

/// The kinds that a text needs a field for.
pub fn kind_rows()
    ensures text { is_needed text8_kind ≡ true }
    ensures number { is_needed quantity ≡ false }
    ensures listed { is_needed side ≡ true }
    ensures bits { is_needed flags ≡ false }
    ensures fixed { is_needed (Const (const.Num (pos 7))) ≡ true }
    ensures decimal { is_needed (decimal_of (int32 Required)) ≡ true }
    ensures unset { is_needed (decimal_of (int32 Optional)) ≡ false }
{}

/// The messages of an earlier version that lack no part that a text needs.
pub fn needed_rows()
    ensures grown { has_needed grown early ≡ true }
    ensures number { has_needed (grown_by later_quantity) (of_fields named_alone) ≡ true }
    ensures listed { has_needed (grown_by later_side) (of_fields named_alone) ≡ false }
    ensures short { has_needed (grown_by later_quantity) (of_fields []) ≡ false }
    ensures no_group { has_needed (grouped_by size16 later_side) (of_group Absent) ≡ true }
    ensures some_entries { has_needed (grouped_by size_from_1 later_quantity) (of_group Absent) ≡ false }
    ensures entry { has_needed (grouped_by size16 later_quantity) (of_group (Entries (of_fields named_alone ∷ [])))
        ≡ true }
    ensures entry_lacks { has_needed (grouped_by size16 later_side) (of_group (Entries (of_fields named_alone ∷ [])))
        ≡ false }
    ensures data { has_needed (with_data (data_of (codes "Text") 58 1)) no_data ≡ true }
    ensures some_data { has_needed (with_data some_data) no_data ≡ false }
{}

/// A message of an earlier version, as it is read from its body, and its fields.
pub fn early_rows()
    ensures read { message_of grown_schema early_body ≡ Ok early_message }
    ensures there { fields_of (plan_for grown) (values_of (plan_for grown) early)
        ≡ Ok (tagged 11 (codes "ORD00001") ∷ []) }
    ensures back { back_refused (plan_for grown) (tagged 11 (codes "ORD00001") ∷ []) ≡ None }
    ensures needed { back_refused (plan_for (grown_by later_side)) (tagged 11 (codes "ORD00001") ∷ [])
        ≡ Some (missing 54) }
{}

/// A decimal whose exponent is outside the range that is written.
pub fn far_rows()
    ensures read { values_of_fields power_plan (tagged 44 (power_text 19) ∷ []) ≡ Some (one_power 19) }
    ensures near { fields_of power_plan (one_power 18) ≡ Ok (tagged 44 (power_text 18) ∷ []) }
    ensures far { fields_of power_plan (one_power 19) ≡ Err (no_text_at 44 Range) }
    ensures within { has_far_exponent power_rule (power 18) ≡ false }
    ensures told { SomeValue (IsFarAt 44) power_plan (one_power 19) }
{}
