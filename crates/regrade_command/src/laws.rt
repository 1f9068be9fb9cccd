//! Laws of the replies to frames that are rewritten.

ghost use Rattle.std.specs.Prelude.{◌≡◌, ◌<◌, ℕ, List, Some, None, Ok};
ghost use Rattle.sbe_types.specs.declared.schema.WireSchema.{WireSchema};
ghost use Rattle.sbe_types.specs.declared.message.Msg.{Msg};
ghost use Rattle.sbe_wire.specs.Placed.{IsPlaced};
ghost use Rattle.open_framing.specs.Frames.{Item};
ghost use Rattle.replies.specs.Reply.{Reply};
ghost use Rattle.replies.specs.declared.verdict.Verdict.TheVariants.{Regraded};
ghost use Rattle.version_laws.specs.Differ.{differ};
ghost use Rattle.version_laws.specs.Plain.{Plain};
ghost use Rattle.version_laws.specs.Projected.{projected};
ghost use Rattle.version_lines.specs.Answered.{IsSent, IsShown, alone, shown_line};
ghost use Rattle.regrade_laws.specs.Regraded.{regraded};
ghost use Rattle.regrade_command.specs.Regrade.{HoldsRewritten, IsRegradable, IsRegraded, Regrading};

/// A frame that is written holds the message that the frame's message is rewritten to, and nothing else.
pub fn what_is_written_is_read()
    ensures { (on : Regrading) (number : ℕ) (item : Item) (reply : Reply) (dropped filled : ℕ) → IsRegradable on.pair
        → IsRegraded on number item reply → reply.verdict ≡ Regraded dropped filled → HoldsRewritten on.pair item reply.output }
{}

/// Downward: for a plain message of a later version, a run of the earlier schema answers the frame as it came and the frame of the
/// rewritten message with lines that differ only in the version.
pub fn lines_differ_in_the_version()
    ensures { (from to : WireSchema) → IsPlaced from → IsPlaced to → differ to from ≡ None → to.version < from.version
        → (m p n : Msg) (came written : Item) → IsSent from m came → to.version < m.version → projected to from m ≡ Some p
        → Plain to from m → regraded from to m ≡ Ok n → IsSent to n written
        → (number : ℕ) → IsShown (alone to) number came (shown_line to p)
        × IsShown (alone to) number written (shown_line to (record { template = p.template; version = to.version; block = p.block })) }
{}
