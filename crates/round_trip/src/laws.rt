//! Laws of the two translations, stated as functions without a body.

ghost use Rattle.std.specs.Prelude.{◌≡◌, ◌≤◌, ℕ, true, false, List, map, length};
ghost use Rattle.sbe_base.specs.declared.status.Limits.{Limits};
ghost use Rattle.byte_digits.specs.Digits.{IsBytes};
ghost use Rattle.sbe_types.specs.declared.message.Msg.{Msg};
ghost use Rattle.sbe_types.specs.declared.schema.Level.{Level};
ghost use Rattle.open_framing.specs.Frames.{Item};
ghost use Rattle.reference_graph.specs.Expansion.{Structure};
ghost use Rattle.command_steps.specs.Ends.{Outcome, PiecesReport};
ghost use Rattle.command_steps.specs.Replies.{by_frames, no_line, none_kept};
ghost use Rattle.command_steps.specs.Splits.{Frame, Frames, PieceEnd, Splits};
ghost use Rattle.command_steps.specs.declared.kept.Kept.{Kept};
ghost use Rattle.replies.specs.Reply.{Reply, Written};
ghost use Rattle.replies.specs.declared.verdict.Verdict.TheVariants.{Translated};
ghost use Rattle.tofix_replies.specs.ToFix.{Bridge, IsToFixReply, head_after};
ghost use Rattle.tosbe_command.specs.Bridges.{BackBridge};
ghost use Rattle.tosbe_command.specs.ToSbe.{IsToSbeReply};
ghost use Rattle.round_trip.specs.Returns.{fields_by, items_by, plan_by, values_by, AreOfOne, CanReturn, IsReturned, IsOfMessage, MayFollow};
ghost use Rattle.round_trip.specs.Runs.{MayAllReturn, AreReturned};

use writable_schemas::laws::kinds_in_order_are_writable;

/// A message that `tofix` translates comes back by `tosbe` with its application items.
pub fn messages_come_back()
    ensures { (on : Bridge) (back : BackBridge) (kept : Kept) (item : Item) (s : Structure) (level : Level) (m : Msg)
        (reply : Reply) → AreOfOne on back → IsOfMessage on back item s level m
        → CanReturn (plan_by on s level) (values_by on s level m)
        → MayFollow on back (plan_by on s level) (head_after kept.translated on.head) (fields_by on s level m)
        → IsToFixReply on kept item reply → reply.verdict ≡ Translated
        → IsReturned on back (plan_by on s level) (items_by on s level m) reply }
{
    kinds_in_order_are_writable();
}

/// The same for every message of the schema's own version.
pub fn messages_of_the_own_version_come_back()
    ensures { (on : Bridge) (back : BackBridge) (kept : Kept) (item : Item) (s : Structure) (level : Level) (m : Msg)
        (reply : Reply) → AreOfOne on back → IsOfMessage on back item s level m
        → IsBytes item.body → m.version ≡ back.schema.version
        → MayFollow on back (plan_by on s level) (head_after kept.translated on.head) (fields_by on s level m)
        → IsToFixReply on kept item reply → reply.verdict ≡ Translated
        → IsReturned on back (plan_by on s level) (items_by on s level m) reply }
{
    kinds_in_order_are_writable();
}

/// `tosbe` of what `tofix` wrote has one reply for each message that was translated, in the order of the input: that to
/// a message with the same application items.
pub fn runs_come_back()
    ensures { (on : Bridge) (back : BackBridge) (limits others : Limits) (input : List ℕ) (items : List Item)
        (end : PieceEnd) (first second : Outcome) → AreOfOne on back → on.frame ≤ others.frame
        → Splits (Frames limits) input (map Frame items) end → MayAllReturn on back none_kept items
        → length first.output ≤ others.input
        → PiecesReport (by_frames limits true no_line (IsToFixReply on)) input first
        → PiecesReport (by_frames others false no_line (IsToSbeReply back)) first.output second
        → (written : Written) × AreReturned on back none_kept 0 items written
        × (second.output ≡ written.output) × (second.notes ≡ written.notes) }
{
    kinds_in_order_are_writable();
}
