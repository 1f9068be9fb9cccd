//! Laws of the definitions, stated as functions without a body. Those of translations depend on `IsCovered`: a
//! structure in which no tag is at two places covers the template of a checked schema.

ghost use Rattle.std.specs.Prelude.{◌≡◌, ℕ, false, List, None, Some, Ok, Err, ◌⊎◌, slice_get};
ghost use Rattle.std.specs.List.{AllByRecursion};
ghost use Rattle.sbe_types.specs.declared.message.Block.{Block};
ghost use Rattle.sbe_types.specs.declared.kind.Order.{Order};
ghost use Rattle.sbe_types.specs.declared.schema.Level.{Level};
ghost use Rattle.sbe_types.specs.declared.schema.WireSchema.{WireSchema};
ghost use Rattle.sbe_wire.specs.Fits.{BlockFits};
ghost use Rattle.fix_values.specs.declared.rule.V.TheVariants.{Range};
ghost use Rattle.tagvalue_codec.specs.Fields.{Field};
ghost use Rattle.schema_facts.specs.IsChecked.{IsChecked};
ghost use Rattle.reference_graph.specs.declared.graph.Link.{Link};
ghost use Rattle.reference_graph.specs.declared.graph.Node.{Node};
ghost use Rattle.reference_graph.specs.Expansion.{Structure, structure_of};
ghost use Rattle.reference_graph.specs.Structures.{is_ambiguous};
ghost use Rattle.bridge_rules.specs.Again.{HasText};
ghost use Rattle.bridge_rules.specs.Bounds.{IsMapped};
ghost use Rattle.bridge_rules.specs.Datatypes.{Datatype};
ghost use Rattle.bridge_rules.specs.Good.{IsItemForm};
ghost use Rattle.bridge_rules.specs.Sound.{IsSound, ShowsGood};
ghost use Rattle.bridge_terms.specs.PlanFacts.{EachRule, EachValue, IsPlaced, IsRoot};
ghost use Rattle.bridge_terms.specs.Parts.{application_fields};
ghost use Rattle.bridge_terms.specs.Gathering.{items_of_fields, items_of, message_application_items, field_application_items};
ghost use Rattle.bridge_terms.specs.WayBack.{back_refused};
ghost use Rattle.bridge_terms.specs.MessageFields.{fields_of, no_text_at};
ghost use Rattle.bridge_terms.specs.Blocks.{values_of, IsPlanOf};
ghost use Rattle.bridge_plan.specs.Mappings.{Mapping};
ghost use Rattle.bridge_plan.specs.Covers.{uncovered, plan_of};
ghost use Rattle.bridge_plan.specs.StructureFacts.{IsDistinct};
ghost use Rattle.bridge_plan.specs.CheckedLevels.{IsCovered, HasShortCodes};
ghost use Rattle.bridge_plan.specs.Translation.{Values, Draft, whole_text, IsMessageOf, IsHead, IsTranslated, ComesBack, IsCanonicalBlock};

use writable_schemas::laws::kinds_in_order_are_writable;

/// A structure that names no tag twice has each tag at one place.
pub fn unambiguous_structures_are_distinct()
    ensures { (graph : List Node) (links : List Link) → is_ambiguous graph links ≡ false
        → IsDistinct (structure_of graph links) }
{}

/// The template of a checked schema that a structure covers has all that the laws of translations depend on.
pub fn covered_templates_of_checked_schemas()
    ensures { (schema : WireSchema) (m : Mapping) (s : Structure) (i : ℕ) (level : Level) → IsChecked schema
        → HasShortCodes m → IsDistinct s → slice_get schema.messages i ≡ Some level
        → uncovered m s level ≡ None → IsCovered m s level }
{}

/// The codes of a mapping are short if those of each of its datatypes are.
pub fn codes_of_short_datatypes_are_short()
    ensures { (m : Mapping) → AllByRecursion (λ (d : ℕ × Datatype). IsMapped d.1) m.datatypes → HasShortCodes m }
{}

/// The plan of a covered level has each part of the level once, and its tags and rules are in order.
pub fn a_covered_level_has_a_plan()
    ensures whole { (m : Mapping) (s : Structure) (level : Level) → IsCovered m s level
        → IsPlanOf level (plan_of m s level) }
    ensures root { (m : Mapping) (s : Structure) (level : Level) → IsCovered m s level → IsRoot (plan_of m s level) }
    ensures placed { (m : Mapping) (s : Structure) (level : Level) → IsCovered m s level → IsPlaced (plan_of m s level) }
    ensures sound { (m : Mapping) (s : Structure) (level : Level) → IsCovered m s level
        → EachRule IsSound (plan_of m s level) }
    ensures shown { (m : Mapping) (s : Structure) (level : Level) → IsCovered m s level
        → EachRule ShowsGood (plan_of m s level) }
    ensures again { (m : Mapping) (s : Structure) (level : Level) → IsCovered m s level
        → EachRule HasText (plan_of m s level) }
{}

/// A text is translated to at most one message.
pub fn at_most_one_message_of_a_text()
    ensures { (m : Mapping) (s : Structure) (level : Level) (text : List Field) (b c : Block) → IsCovered m s level
        → IsMessageOf m s level text b → IsMessageOf m s level text c → b ≡ c }
{}

/// A text is translated to a message exactly if it isn't refused.
pub fn a_text_is_translated_or_refused()
    ensures some { (m : Mapping) (s : Structure) (level : Level) (text : List Field) → IsCovered m s level
        → back_refused (plan_of m s level) (application_fields m.lists text) ≡ None
        → (b : Block) × IsMessageOf m s level text b }
    ensures only { (m : Mapping) (s : Structure) (level : Level) (text : List Field) (b : Block) → IsCovered m s level
        → IsMessageOf m s level text b
        → back_refused (plan_of m s level) (application_fields m.lists text) ≡ None }
{}

/// A head of header tags and the length fields are skipped.
pub fn heads_and_lengths_are_skipped()
    ensures { (m : Mapping) (s : Structure) (level : Level) (draft : Draft) (values : Values m s level)
        → IsCovered m s level → IsHead m draft.head → fields_of (plan_of m s level) values ≡ Ok draft.fields
        → application_fields m.lists (whole_text m draft) ≡ draft.fields }
{}

/// The text of a message has the message's items, including those that applications see.
pub fn texts_have_the_items_of_their_messages()
    ensures application { (m : Mapping) (s : Structure) (level : Level) (values : Values m s level) (draft : Draft)
        → IsTranslated m s level values draft
        → field_application_items (plan_of m s level) (application_fields m.lists (whole_text m draft))
        ≡ Some (message_application_items (plan_of m s level) values) }
    ensures items { (m : Mapping) (s : Structure) (level : Level) (values : Values m s level) (draft : Draft)
        → IsTranslated m s level values draft
        → items_of_fields (plan_of m s level) (application_fields m.lists (whole_text m draft))
        ≡ Some (items_of (plan_of m s level) values) }
{}

/// The text of a message is translated back to a message with its items.
pub fn a_message_comes_back_with_its_items()
    ensures application { (m : Mapping) (s : Structure) (level : Level) (values : Values m s level) (draft : Draft)
        → ComesBack m s level values draft
        → (b : Block) × IsMessageOf m s level (whole_text m draft) b
        × (message_application_items (plan_of m s level) (values_of (plan_of m s level) b)
        ≡ message_application_items (plan_of m s level) values) }
    ensures items { (m : Mapping) (s : Structure) (level : Level) (values : Values m s level) (draft : Draft)
        → ComesBack m s level values draft
        → (b : Block) × IsMessageOf m s level (whole_text m draft) b
        × (items_of (plan_of m s level) (values_of (plan_of m s level) b) ≡ items_of (plan_of m s level) values) }
{}

/// A block that fits its template comes back with its items, if it has fields.
pub fn blocks_that_fit_come_back()
    ensures { (order : Order) (m : Mapping) (s : Structure) (level : Level) (block : Block) (draft : Draft)
        → IsCovered m s level → IsHead m draft.head → BlockFits order level block
        → fields_of (plan_of m s level) (values_of (plan_of m s level) block) ≡ Ok draft.fields
        → ComesBack m s level (values_of (plan_of m s level) block) draft }
{}

/// The message that a text is translated to fits its template.
pub fn messages_of_texts_fit()
    ensures { (order : Order) (schema : WireSchema) (m : Mapping) (s : Structure) (i : ℕ) (level : Level)
        (text : List Field) (b : Block) → IsChecked schema → slice_get schema.messages i ≡ Some level
        → IsCovered m s level → IsMessageOf m s level text b → BlockFits order level b }
{
    kinds_in_order_are_writable();
}

/// A message of canonical values comes back as it was.
pub fn a_canonical_message_comes_back()
    ensures { (m : Mapping) (s : Structure) (level : Level) (block : Block) (draft : Draft)
        → IsCanonicalBlock m s level block draft → IsMessageOf m s level (whole_text m draft) block }
{}

/// A block that fits its template, with each value in the one form of its item, is canonical.
pub fn fitting_blocks_of_item_forms_are_canonical()
    ensures { (order : Order) (schema : WireSchema) (m : Mapping) (s : Structure) (i : ℕ) (level : Level) (block : Block)
        (draft : Draft) → IsChecked schema → slice_get schema.messages i ≡ Some level → IsCovered m s level
        → IsHead m draft.head → BlockFits order level block
        → EachValue IsItemForm (plan_of m s level) (values_of (plan_of m s level) block)
        → fields_of (plan_of m s level) (values_of (plan_of m s level) block) ≡ Ok draft.fields
        → IsCanonicalBlock m s level block draft }
{
    kinds_in_order_are_writable();
}

/// The message of a text can be written again, unless a decimal's exponent is outside the range that is written. Its
/// text then has the same items, and is translated to the same message.
pub fn a_text_written_again_has_its_items()
    ensures written { (m : Mapping) (s : Structure) (level : Level) (text : List Field) (b : Block) → IsCovered m s level
        → IsMessageOf m s level text b
        → ((fields : List Field) × (fields_of (plan_of m s level) (values_of (plan_of m s level) b) ≡ Ok fields))
        ⊎ ((tag : ℕ) × (fields_of (plan_of m s level) (values_of (plan_of m s level) b) ≡ Err (no_text_at tag Range))) }
    ensures application { (m : Mapping) (s : Structure) (level : Level) (text : List Field) (b : Block) (draft : Draft)
        → IsCovered m s level → IsHead m draft.head → IsMessageOf m s level text b
        → fields_of (plan_of m s level) (values_of (plan_of m s level) b) ≡ Ok draft.fields
        → field_application_items (plan_of m s level) (application_fields m.lists (whole_text m draft))
        ≡ field_application_items (plan_of m s level) (application_fields m.lists text) }
    ensures items { (m : Mapping) (s : Structure) (level : Level) (text : List Field) (b : Block) (draft : Draft)
        → IsCovered m s level → IsHead m draft.head → IsMessageOf m s level text b
        → fields_of (plan_of m s level) (values_of (plan_of m s level) b) ≡ Ok draft.fields
        → items_of_fields (plan_of m s level) (application_fields m.lists (whole_text m draft))
        ≡ items_of_fields (plan_of m s level) (application_fields m.lists text) }
    ensures back { (m : Mapping) (s : Structure) (level : Level) (text : List Field) (b : Block) (draft : Draft)
        → IsCovered m s level → IsHead m draft.head → IsMessageOf m s level text b
        → fields_of (plan_of m s level) (values_of (plan_of m s level) b) ≡ Ok draft.fields
        → IsMessageOf m s level (whole_text m draft) b }
{}
