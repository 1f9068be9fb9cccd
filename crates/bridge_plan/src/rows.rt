//! The definitions, computed on worked rows.

ghost use Rattle.std.specs.Prelude.{◌≡◌, ◌∷◌, [], length, pos, negsuc, codes, None, Some, Ok, Err};
ghost use Rattle.fix_values.specs.declared.rule.V.TheVariants.{Spelling, Range, Inexact, UnknownCode};
ghost use Rattle.fix_values.specs.Decimals.{dec, decimal_text};
ghost use Rattle.sbe_types.specs.declared.message.Value.TheVariants.{Num};
ghost use Rattle.sbe_wire.specs.Rows.Schemas.{data_of};
ghost use Rattle.reference_graph.specs.declared.graph.Link.TheVariants.{Field, To};
ghost use Rattle.reference_graph.specs.Expansion.{ended, plain, counted, structure_of};
ghost use Rattle.bridge_rules.specs.Rules.{fixed_decimal};
ghost use Rattle.bridge_rules.specs.Members.{decimal_value};
ghost use Rattle.bridge_rules.specs.Texts.{text_by};
ghost use Rattle.bridge_terms.specs.Parts.{application_fields};
ghost use Rattle.bridge_terms.specs.Gathering.{values_of_fields};
ghost use Rattle.bridge_terms.specs.MessageFields.{fields_of, message_parts, with_lengths, no_text_at};
ghost use Rattle.bridge_terms.specs.Places.{places_of, to_part, to_entry, no_text, no_delimiter};
ghost use Rattle.bridge_terms.specs.WayBack.{back_refused, unreadable, unlike, misgrouped, unknown, missing, repeated};
ghost use Rattle.bridge_terms.specs.Blocks.{values_of, IsPlanOf};
ghost use Rattle.bridge_plan.specs.Mappings.{structure_for};
ghost use Rattle.bridge_plan.specs.Covers.{cover_of, covered_by, unmapped, no_message, templates_of, template_for};
ghost use Rattle.bridge_plan.specs.Rows.{plan_for, uint8_leaf, tm, st, tm_plan, st_plan, one_moment, one_set, px, rd};
ghost use Rattle.bridge_plan.specs.Rows.{gr, order, px_plan, rd_plan, gr_plan, order_plan, lists, price, raw_bytes};
ghost use Rattle.bridge_plan.specs.Rows.{one_order, one_bare_entry, order_block, order_fields, tagged, mapping};
ghost use Rattle.bridge_plan.specs.Rows.{strange, lines, template, template_of_group, x_at, uncovered_in};
ghost use Rattle.bridge_plan.specs.Rows.{empty_component_first, party_plan};
ghost use Rattle.bridge_plan.specs.CaseRows.{lacking, lacking_map, bare_data, bare_data_map, zoned, zoned_map};

/// The plans of covered templates.
pub fn plan_rows()
    ensures price { plan_for px ≡ px_plan }
    ensures raw { plan_for rd ≡ rd_plan }
    ensures lines { plan_for gr ≡ gr_plan }
    ensures order { plan_for order ≡ order_plan }
    ensures block { values_of order_plan (order_block 49) ≡ one_order 49 }
{}

/// The text of a price.
pub fn text_rows()
    ensures alone { decimal_text (dec (pos 12345) (negsuc 1)) ≡ Ok (codes "123.45") }
    ensures ruled { text_by (fixed_decimal uint8_leaf (negsuc 1)) (decimal_value (Num (pos 12345)))
        ≡ Ok (Some (codes "123.45")) }
    ensures parted { message_parts px_plan (price (pos 12345))
        ≡ Ok (record { tag = 44; text = codes "123.45"; run = [] } ∷ []) }
{}

/// A price in both directions, and what is wrong with others.
pub fn price_rows()
    ensures there { fields_of px_plan (price (pos 12345)) ≡ Ok (tagged 44 (codes "123.45") ∷ []) }
    ensures back { values_of_fields px_plan (tagged 44 (codes "123.450") ∷ []) ≡ Some (price (pos 12345)) }
    ensures inexact { back_refused px_plan (tagged 44 (codes "123.456") ∷ [])
        ≡ Some (unreadable 44 Inexact) }
    ensures strange { back_refused px_plan (tagged 44 (codes "1") ∷ tagged 999 (codes "x") ∷ [])
        ≡ Some (unknown 999) }
    ensures twice { back_refused px_plan (tagged 44 (codes "1") ∷ tagged 44 (codes "x") ∷ [])
        ≡ Some (repeated 44) }
    ensures nothing { back_refused px_plan [] ≡ Some (missing 44) }
{}

/// Data with its length field.
pub fn data_rows()
    ensures there { fields_of rd_plan raw_bytes ≡ Ok (tagged 96 (97 ∷ 1 ∷ 98 ∷ []) ∷ []) }
    ensures led { with_lengths lists (tagged 96 (97 ∷ 1 ∷ 98 ∷ []) ∷ [])
        ≡ tagged 95 (codes "3") ∷ tagged 96 (97 ∷ 1 ∷ 98 ∷ []) ∷ [] }
    ensures back { values_of_fields rd_plan
        (application_fields lists (tagged 95 (codes "3") ∷ tagged 96 (97 ∷ 1 ∷ 98 ∷ []) ∷ []))
        ≡ Some raw_bytes }
{}

/// A group with fewer entries than its count states.
pub fn group_rows()
    ensures { back_refused gr_plan
        (tagged 146 (codes "3") ∷ tagged 55 (codes "A") ∷ tagged 55 (codes "B") ∷ [])
        ≡ Some (misgrouped 146) }
{}

/// An order with a group, written.
pub fn order_rows()
    ensures there { fields_of order_plan (one_order 49) ≡ Ok order_fields }
    ensures strange { fields_of order_plan (one_order 57) ≡ Err (no_text_at 54 UnknownCode) }
{}

/// The same order, read.
pub fn order_back_rows()
    ensures back { values_of_fields order_plan order_fields ≡ Some (one_order 49) }
    ensures fine { back_refused order_plan order_fields ≡ None }
{}

/// What the mapping covers, and the first part that it doesn't.
pub fn cover_rows()
    ensures price { cover_of mapping px ≡ covered_by px_plan }
    ensures raw { cover_of mapping rd ≡ covered_by rd_plan }
    ensures lines { cover_of mapping gr ≡ covered_by gr_plan }
    ensures order { cover_of mapping order ≡ covered_by order_plan }
    ensures strange { cover_of mapping strange ≡ unmapped (codes "Parties" ∷ codes "Other" ∷ []) }
    ensures other { cover_of mapping lines ≡ no_message }
{}

/// A plan is one of its level.
pub fn level_rows()
    ensures { IsPlanOf px px_plan }
{}

/// A moment in milliseconds and a day, in both directions, and what is wrong with others.
pub fn moment_rows()
    ensures cover { cover_of mapping tm ≡ covered_by tm_plan }
    ensures there { fields_of tm_plan one_moment
        ≡ Ok (tagged 60 (codes "19700102-00:00:01.500") ∷ tagged 75 (codes "19700102") ∷ []) }
    ensures back { values_of_fields tm_plan
        (tagged 60 (codes "19700102-00:00:01.500") ∷ tagged 75 (codes "19700102") ∷ [])
        ≡ Some one_moment }
    ensures inexact { back_refused tm_plan
        (tagged 60 (codes "19700102-00:00:01.5005") ∷ tagged 75 (codes "19700102") ∷ [])
        ≡ Some (unreadable 60 Inexact) }
    ensures no_day { back_refused tm_plan
        (tagged 60 (codes "19700102-00:00:01.500") ∷ tagged 75 (codes "19700230") ∷ [])
        ≡ Some (unreadable 75 Range) }
{}

/// A set and a constant, in both directions, and what is wrong with others.
pub fn set_rows()
    ensures cover { cover_of mapping st ≡ covered_by st_plan }
    ensures there { fields_of st_plan (one_set 9)
        ≡ Ok (tagged 18 (codes "5 G") ∷ tagged 77 (codes "7") ∷ []) }
    ensures empty { fields_of st_plan (one_set 0) ≡ Ok (tagged 77 (codes "7") ∷ []) }
    ensures bare { fields_of st_plan (one_set 32) ≡ Err (no_text_at 18 UnknownCode) }
    ensures back { values_of_fields st_plan (tagged 77 (codes "07") ∷ tagged 18 (codes "G 5") ∷ [])
        ≡ Some (one_set 9) }
    ensures unlike { back_refused st_plan (tagged 77 (codes "8") ∷ tagged 18 (codes "G") ∷ [])
        ≡ Some (unlike 77) }
    ensures twice { back_refused st_plan (tagged 18 (codes "G G") ∷ tagged 77 (codes "7") ∷ [])
        ≡ Some (unreadable 18 Spelling) }
    ensures missing { back_refused st_plan (tagged 18 (codes "G") ∷ []) ≡ Some (missing 77) }
{}

/// Fields that a mapping covers, and those that it doesn't.
pub fn covered_field_rows()
    ensures text { uncovered_in (plain 11 ended) (template (x_at 11) []) ≡ None }
    ensures header { uncovered_in (plain 49 ended) (template (x_at 49) []) ≡ Some (codes "x" ∷ []) }
    ensures length { uncovered_in (plain 95 (plain 96 ended)) (template (x_at 95) []) ≡ Some (codes "x" ∷ []) }
    ensures data { uncovered_in (plain 95 (plain 96 ended)) (template (x_at 96) []) ≡ Some (codes "x" ∷ []) }
    ensures elsewhere { uncovered_in (plain 11 ended) (template (x_at 55) []) ≡ Some (codes "x" ∷ []) }
    ensures count { uncovered_in (counted 453 (plain 448 ended) ended) (template (x_at 453) []) ≡ Some (codes "x" ∷ []) }
    ensures deeper { uncovered_in (counted 453 (plain 448 ended) ended) (template (x_at 448) []) ≡ Some (codes "x" ∷ []) }
    ensures again { uncovered_in (plain 11 ended) (template ((codes "x", 11) ∷ (codes "y", 11) ∷ []) [])
        ≡ Some (codes "y" ∷ []) }
    ensures ruleless { uncovered_in (plain 54 ended) (template (x_at 54) []) ≡ Some (codes "x" ∷ []) }
{}

/// Data that a mapping covers, and those that it doesn't.
pub fn covered_data_rows()
    ensures raw { uncovered_in (plain 95 (plain 96 ended)) (template [] (data_of (codes "d") 96 0 ∷ [])) ≡ None }
    ensures text { uncovered_in (plain 55 ended) (template [] (data_of (codes "d") 55 0 ∷ [])) ≡ None }
    ensures header { uncovered_in (plain 49 ended) (template [] (data_of (codes "d") 49 0 ∷ [])) ≡ Some (codes "d" ∷ []) }
    ensures length { uncovered_in (plain 95 (plain 96 ended)) (template [] (data_of (codes "d") 95 0 ∷ [])) ≡ Some (codes "d" ∷ []) }
    ensures again { uncovered_in (plain 55 ended) (template (x_at 55) (data_of (codes "d") 55 0 ∷ [])) ≡ Some (codes "d" ∷ []) }
{}

/// Groups that a mapping covers, and those that it doesn't.
pub fn covered_group_rows()
    ensures covered { uncovered_in (counted 453 (plain 448 (plain 55 ended)) ended)
        (template_of_group 453 ((codes "x", 55) ∷ (codes "y", 448) ∷ []) []) ≡ None }
    ensures field { uncovered_in (plain 453 (plain 448 ended)) (template_of_group 453 (x_at 448) []) ≡ Some (codes "G" ∷ []) }
    ensures header { uncovered_in (counted 49 (plain 448 ended) ended) (template_of_group 49 (x_at 448) []) ≡ Some (codes "G" ∷ []) }
    ensures length { uncovered_in (counted 95 (plain 448 ended) ended) (template_of_group 95 (x_at 448) []) ≡ Some (codes "G" ∷ []) }
    ensures data { uncovered_in (counted 96 (plain 448 ended) ended) (template_of_group 96 (x_at 448) []) ≡ Some (codes "G" ∷ []) }
    ensures inside { uncovered_in (counted 453 (plain 448 ended) (plain 55 ended))
        (template_of_group 453 ((codes "y", 448) ∷ (codes "x", 55) ∷ []) []) ≡ Some (codes "G" ∷ codes "x" ∷ []) }
    ensures header_inside { uncovered_in (counted 453 (plain 448 (plain 49 ended)) ended)
        (template_of_group 453 ((codes "y", 448) ∷ (codes "x", 49) ∷ []) []) ≡ Some (codes "G" ∷ codes "x" ∷ []) }
{}

/// Delimiters of groups: the first place of the group is a field of the template's group, and isn't a header, length or
/// data field.
pub fn delimiter_rows()
    ensures missing { uncovered_in (counted 453 (plain 448 (plain 55 ended)) ended) (template_of_group 453 (x_at 55) []) ≡ Some (codes "G" ∷ []) }
    ensures header { uncovered_in (counted 453 (plain 49 (plain 448 ended)) ended) (template_of_group 453 ((codes "x", 49) ∷ (codes "y", 448) ∷ []) [])
        ≡ Some (codes "G" ∷ []) }
    ensures length { uncovered_in (counted 453 (plain 95 (plain 448 ended)) ended) (template_of_group 453 ((codes "x", 95) ∷ (codes "y", 448) ∷ []) [])
        ≡ Some (codes "G" ∷ []) }
    ensures data { uncovered_in (counted 453 (plain 96 (plain 448 ended)) ended)
        (template_of_group 453 ((codes "x", 96) ∷ (codes "y", 448) ∷ []) []) ≡ Some (codes "G" ∷ []) }
    ensures group { uncovered_in (counted 453 (counted 146 (plain 55 ended) (plain 448 ended)) ended) (template_of_group 453 (x_at 448) [])
        ≡ Some (codes "G" ∷ []) }
    ensures nothing { uncovered_in (counted 453 ended ended) (template_of_group 453 (x_at 448) []) ≡ Some (codes "G" ∷ []) }
    ensures empty_component { structure_of empty_component_first (To 0 ∷ Field 448 ∷ Field 55 ∷ []) ≡ plain 448 (plain 55 ended) }
{}

/// Messages without a template and templates without a message.
pub fn message_rows()
    ensures no_type { cover_of mapping lines ≡ no_message }
    ensures no_message { structure_for mapping (codes "ZZ") ≡ None }
    ensures one { templates_of (codes "U3") (px ∷ rd ∷ gr ∷ []) ≡ px ∷ [] }
    ensures none { templates_of (codes "ZZ") (px ∷ rd ∷ gr ∷ []) ≡ [] }
    ensures several { templates_of (codes "D") (px ∷ order ∷ strange ∷ []) ≡ order ∷ strange ∷ [] }
    ensures only { template_for mapping (codes "U3") (px ∷ rd ∷ gr ∷ []) ≡ Some px }
    ensures no_other { template_for mapping (codes "U1") (px ∷ gr ∷ []) ≡ None }
    ensures ambiguous { template_for mapping (codes "D") (px ∷ order ∷ strange ∷ []) ≡ None }
    ensures unmapped { template_for mapping [] (px ∷ lines ∷ []) ≡ None }
{}

/// The first part that isn't covered, in larger examples: a field that the mapped group lacks, a number whose field is
/// data, and a number of a datatype that isn't bridged.
pub fn larger_cover_rows()
    ensures lacking { cover_of lacking_map lacking ≡ unmapped (codes "g14" ∷ codes "f9" ∷ []) }
    ensures data { cover_of bare_data_map bare_data ≡ unmapped (codes "f14" ∷ []) }
    ensures zoned { cover_of zoned_map zoned ≡ unmapped (codes "f10" ∷ []) }
    ensures other { cover_of bare_data_map zoned ≡ no_message }
{}

/// Groups that are read, and what is wrong with others.
pub fn group_back_rows()
    ensures fine { back_refused gr_plan (tagged 146 (codes "2") ∷ tagged 55 (codes "A") ∷ tagged 55 (codes "B") ∷ []) ≡ None }
    ensures none { back_refused gr_plan (tagged 146 (codes "0") ∷ []) ≡ None }
    ensures zeros { back_refused gr_plan (tagged 146 (codes "01") ∷ tagged 55 (codes "A") ∷ []) ≡ None }
    ensures spelling { back_refused gr_plan (tagged 146 (codes "x") ∷ tagged 55 (codes "A") ∷ []) ≡ Some (unreadable 146 Spelling) }
    ensures range { back_refused gr_plan (tagged 146 (codes "65535") ∷ []) ≡ Some (unreadable 146 Range) }
    ensures negative { back_refused gr_plan (tagged 146 (codes "-1") ∷ []) ≡ Some (unreadable 146 Range) }
    ensures more { back_refused gr_plan (tagged 146 (codes "1") ∷ tagged 55 (codes "A") ∷ tagged 55 (codes "B") ∷ [])
        ≡ Some (misgrouped 146) }
    ensures no_run { back_refused gr_plan (tagged 146 (codes "1") ∷ []) ≡ Some (misgrouped 146) }
    ensures elsewhere { back_refused gr_plan (tagged 55 (codes "A") ∷ []) ≡ Some (unknown 55) }
    ensures twice { back_refused gr_plan (tagged 146 (codes "0") ∷ tagged 146 (codes "0") ∷ []) ≡ Some (repeated 146) }
    ensures begins { back_refused party_plan (tagged 453 (codes "1") ∷ tagged 55 (codes "A") ∷ tagged 448 (codes "B") ∷ [])
        ≡ Some (misgrouped 453) }
    ensures lacked { back_refused party_plan (tagged 453 (codes "1") ∷ tagged 448 (codes "A") ∷ tagged 447 (codes "D") ∷ [])
        ≡ Some (unknown 447) }
    ensures entry_twice { back_refused party_plan
        (tagged 453 (codes "1") ∷ tagged 448 (codes "A") ∷ tagged 55 (codes "B") ∷ tagged 55 (codes "C") ∷ [])
        ≡ Some (repeated 55) }
    ensures entry_missing { back_refused party_plan (tagged 453 (codes "1") ∷ tagged 448 (codes "A") ∷ []) ≡ Some (missing 55) }
{}

/// Header and length fields in a text are skipped, also inside a group.
pub fn passed_rows()
    ensures header { application_fields lists (tagged 34 (codes "7") ∷ tagged 146 (codes "1") ∷ tagged 52 (codes "x") ∷ tagged 55 (codes "A") ∷ [])
        ≡ tagged 146 (codes "1") ∷ tagged 55 (codes "A") ∷ [] }
    ensures length { application_fields lists (tagged 95 (codes "3") ∷ tagged 96 (codes "a=b") ∷ []) ≡ tagged 96 (codes "a=b") ∷ [] }
{}

/// The first refused place of a message, and the places before it.
pub fn place_rows()
    ensures all { (places_of order_plan (one_order 49)).refused ≡ None }
    ensures side { (places_of order_plan (one_order 57)).refused ≡ Some (record { way = to_part 54 ∷ []; why = no_text UnknownCode }) }
    ensures before { length (places_of order_plan (one_order 57)).places ≡ 5 }
    ensures entry { (places_of gr_plan one_bare_entry).refused
        ≡ Some (record { way = to_part 146 ∷ to_entry 0 ∷ []; why = no_delimiter }) }
{}
