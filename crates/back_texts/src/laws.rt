//! Laws of messages and their texts, stated as functions without a body.

ghost use Rattle.std.specs.Prelude.{List, ℕ};
ghost use Rattle.sbe_types.specs.declared.message.Msg.{Msg};
ghost use Rattle.sbe_types.specs.declared.schema.Level.{Level};
ghost use Rattle.sbe_types.specs.declared.schema.WireSchema.{WireSchema};
ghost use Rattle.reference_graph.specs.Expansion.{Structure};
ghost use Rattle.bridge_terms.specs.PlanFacts.{EachRule};
ghost use Rattle.bridge_plan.specs.Covers.{plan_of};
ghost use Rattle.bridge_plan.specs.Mappings.{Mapping};
ghost use Rattle.bridge_plan.specs.StructureFacts.{EachGroup};
ghost use Rattle.back_texts.specs.Backs.{IsExact, IsOwnMessage, IsReadBack, IsWrittenAs, Writing};
ghost use Rattle.back_texts.specs.Forms.{HasOneForm, HaveOneForm};

use writable_schemas::laws::kinds_in_order_are_writable;

/// A text that a message of a body is written as is read as fields that are translated to this message.
pub fn written_messages_are_those_of_their_texts()
    ensures { (schema : WireSchema) (by : Writing) (message : Msg) (text body : List ℕ) → IsOwnMessage schema by.level message body
        → IsWrittenAs by message text → IsReadBack by message text }
{
    kinds_in_order_are_writable();
}

/// The plan of a level writes each value in one form, if the kinds of its fields have one, at each depth.
pub fn plans_of_one_form_are_exact()
    ensures { (m : Mapping) (s : Structure) (level : Level) → HaveOneForm level → EachGroup HasOneForm s level
        → EachRule IsExact (plan_of m s level) }
{}
