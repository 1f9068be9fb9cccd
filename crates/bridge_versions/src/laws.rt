//! Laws of messages of any version, stated as functions without a body. A structure in which no tag is at two places
//! covers the template of a checked schema (`IsCovered`), and the message lies in a body of it (`IsReceived`).

ghost use Rattle.std.specs.Prelude.{◌≡◌, ◌⊎◌, ◌≤◌, ℕ, true, List, None, Some, Ok, Err};
ghost use Rattle.sbe_types.specs.declared.message.Block.{Block};
ghost use Rattle.sbe_types.specs.declared.message.Msg.{Msg};
ghost use Rattle.sbe_types.specs.declared.schema.Level.{Level};
ghost use Rattle.sbe_types.specs.declared.schema.WireSchema.{WireSchema};
ghost use Rattle.fix_values.specs.declared.rule.V.TheVariants.{Range};
ghost use Rattle.tagvalue_codec.specs.Fields.{Field};
ghost use Rattle.reference_graph.specs.Expansion.{Structure};
ghost use Rattle.bridge_terms.specs.Parts.{application_fields};
ghost use Rattle.bridge_terms.specs.Gathering.{items_of_fields, items_of, message_application_items, field_application_items};
ghost use Rattle.bridge_terms.specs.MessageFields.{fields_of, no_text_at};
ghost use Rattle.bridge_terms.specs.WayBack.{back_refused};
ghost use Rattle.bridge_terms.specs.Blocks.{values_of};
ghost use Rattle.bridge_plan.specs.Mappings.{Mapping};
ghost use Rattle.bridge_plan.specs.Covers.{plan_of};
ghost use Rattle.bridge_plan.specs.CheckedLevels.{IsCovered};
ghost use Rattle.bridge_plan.specs.Translation.{Draft, whole_text, IsMessageOf, IsHead, ComesBack};
ghost use Rattle.bridge_versions.specs.Needed.{has_needed};
ghost use Rattle.bridge_versions.specs.Received.{IsReceived, SomeValue, IsFarAt};

use writable_schemas::laws::{checked_schemas_are_writable, kinds_in_order_are_writable};

/// The text of a message has the message's items, including those that applications see, whatever its version is: a part
/// that is absent has no item, and a value that the schema doesn't list is refused.
pub fn texts_have_the_items_of_received_messages()
    ensures application { (schema : WireSchema) (m : Mapping) (s : Structure) (level : Level) (message : Msg)
        (body : List ℕ) (draft : Draft) → IsReceived schema level message body → IsCovered m s level
        → IsHead m draft.head → fields_of (plan_of m s level) (values_of (plan_of m s level) message.block) ≡ Ok draft.fields
        → field_application_items (plan_of m s level) (application_fields m.lists (whole_text m draft))
        ≡ Some (message_application_items (plan_of m s level) (values_of (plan_of m s level) message.block)) }
    ensures items { (schema : WireSchema) (m : Mapping) (s : Structure) (level : Level) (message : Msg) (body : List ℕ)
        (draft : Draft) → IsReceived schema level message body → IsCovered m s level → IsHead m draft.head
        → fields_of (plan_of m s level) (values_of (plan_of m s level) message.block) ≡ Ok draft.fields
        → items_of_fields (plan_of m s level) (application_fields m.lists (whole_text m draft))
        ≡ Some (items_of (plan_of m s level) (values_of (plan_of m s level) message.block)) }
{
    kinds_in_order_are_writable();
}

/// A message of any version comes back from its text with its items, if no part that its version lacks is one that a
/// text needs.
pub fn received_messages_come_back()
    ensures premises { (schema : WireSchema) (m : Mapping) (s : Structure) (level : Level) (message : Msg) (body : List ℕ)
        (draft : Draft) → IsReceived schema level message body → IsCovered m s level → IsHead m draft.head
        → fields_of (plan_of m s level) (values_of (plan_of m s level) message.block) ≡ Ok draft.fields
        → has_needed level message.block ≡ true
        → ComesBack m s level (values_of (plan_of m s level) message.block) draft }
    ensures application { (schema : WireSchema) (m : Mapping) (s : Structure) (level : Level) (message : Msg)
        (body : List ℕ) (draft : Draft) → IsReceived schema level message body → IsCovered m s level
        → IsHead m draft.head → fields_of (plan_of m s level) (values_of (plan_of m s level) message.block) ≡ Ok draft.fields
        → has_needed level message.block ≡ true
        → (b : Block) × IsMessageOf m s level (whole_text m draft) b
        × (message_application_items (plan_of m s level) (values_of (plan_of m s level) b)
        ≡ message_application_items (plan_of m s level) (values_of (plan_of m s level) message.block)) }
{
    kinds_in_order_are_writable();
}

/// A message whose text can be translated back lacks no part that a text needs.
pub fn messages_that_come_back_lack_nothing_needed()
    ensures { (schema : WireSchema) (m : Mapping) (s : Structure) (level : Level) (message : Msg) (body : List ℕ)
        (draft : Draft) → IsReceived schema level message body → IsCovered m s level → IsHead m draft.head
        → fields_of (plan_of m s level) (values_of (plan_of m s level) message.block) ≡ Ok draft.fields
        → back_refused (plan_of m s level) (application_fields m.lists (whole_text m draft)) ≡ None
        → has_needed level message.block ≡ true }
{
    kinds_in_order_are_writable();
}

/// A message of the schema's own version, or of a later one, lacks no part.
pub fn later_messages_lack_nothing()
    ensures { (schema : WireSchema) (level : Level) (message : Msg) (body : List ℕ) → IsReceived schema level message body
        → schema.version ≤ message.version → has_needed level message.block ≡ true }
{
    checked_schemas_are_writable();
}

/// The message of a text can be written again, unless one of its values is a decimal whose exponent is outside the range
/// that is written: the refusal then names its tag.
pub fn texts_are_written_again_but_for_far_exponents()
    ensures { (m : Mapping) (s : Structure) (level : Level) (text : List Field) (b : Block) → IsCovered m s level
        → IsMessageOf m s level text b
        → ((fields : List Field) × (fields_of (plan_of m s level) (values_of (plan_of m s level) b) ≡ Ok fields))
        ⊎ ((tag : ℕ) × (fields_of (plan_of m s level) (values_of (plan_of m s level) b) ≡ Err (no_text_at tag Range))
        × SomeValue (IsFarAt tag) (plan_of m s level) (values_of (plan_of m s level) b)) }
{}
