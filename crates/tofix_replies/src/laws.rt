//! Laws of the replies, stated as functions without a body.

ghost use Rattle.std.specs.Prelude.{◌≡◌, ℕ, Some, slice_get};
ghost use Rattle.sbe_types.specs.declared.message.Value.{Value};
ghost use Rattle.sbe_types.specs.declared.schema.Level.{Level, out-Level};
ghost use Rattle.sbe_types.specs.declared.schema.WireSchema.{WireSchema};
ghost use Rattle.schema_facts.specs.IsChecked.{IsChecked};
ghost use Rattle.open_framing.specs.Frames.{Item};
ghost use Rattle.reference_graph.specs.Expansion.{Structure};
ghost use Rattle.bridge_terms.specs.Places.{Unsent, places_of};
ghost use Rattle.bridge_terms.specs.Plans.{Tree};
ghost use Rattle.bridge_plan.specs.Covers.{plan_of};
ghost use Rattle.bridge_plan.specs.Mappings.{Mapping};
ghost use Rattle.fix_messages.specs.Heads.{Head};
ghost use Rattle.fix_messages.specs.Texts.{text_refusal};
ghost use Rattle.dump_lines.specs.Dumped.{AreInOrder};
ghost use Rattle.command_steps.specs.declared.kept.Kept.{Kept};
ghost use Rattle.replies.specs.Reply.{Reply};
ghost use Rattle.tofix_replies.specs.ToFix.{Bridge, IsToFixReply};
ghost use Rattle.tofix_replies.specs.Unsent.{IsNear};

/// Each frame has exactly one reply.
pub fn each_frame_has_one_reply()
    ensures some { (b : Bridge) (kept : Kept) (item : Item) → AreInOrder b.schemas → (reply : Reply) × IsToFixReply b kept item reply }
    ensures one { (b : Bridge) (kept : Kept) (item : Item) (x y : Reply) → AreInOrder b.schemas
        → IsToFixReply b kept item x → IsToFixReply b kept item y → x ≡ y }
{}

/// The path to a refused place of a message of a checked schema has no more steps than are kept.
pub fn ways_have_few_steps()
    ensures { (schema : WireSchema) (i : ℕ) (level : Level) (m : Mapping) (s : Structure) (limit : ℕ) (head : Head) (t : Tree Value (plan_of m s level)) (u : Unsent)
        → IsChecked schema → slice_get schema.messages i ≡ Some level
        → text_refusal m.lists limit (out-Level level).semantic head (places_of (plan_of m s level) t) ≡ Some u → IsNear u }
{}
