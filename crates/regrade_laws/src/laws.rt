//! Laws of messages that are rewritten in another version of their schema. They are stated over the definitions only.

ghost use Rattle.std.specs.Prelude.{◌≡◌, ◌<◌, ◌≤◌, ℕ, List, None, Some, Ok, length, slice_get};
ghost use Rattle.sbe_types.specs.declared.schema.WireSchema.{WireSchema};
ghost use Rattle.sbe_types.specs.declared.schema.Level.{Level, out-Level};
ghost use Rattle.sbe_types.specs.declared.message.Block.{Block};
ghost use Rattle.sbe_types.specs.declared.message.Msg.{Msg};
ghost use Rattle.sbe_wire.specs.Faults.{message_named};
ghost use Rattle.sbe_wire.specs.Fits.{Fits};
ghost use Rattle.sbe_wire.specs.Lays.{Lays};
ghost use Rattle.sbe_wire.specs.Placed.{IsPlaced};
ghost use Rattle.version_laws.specs.Differ.{differ};
ghost use Rattle.version_laws.specs.Projected.{projected, projected_block, lifted_block};
ghost use Rattle.schema_facts.specs.Counted.{count_in};
ghost use Rattle.schema_facts.specs.IsChecked.{IsChecked};
ghost use Rattle.regrade_laws.specs.declared.way.Way.{Way};
ghost use Rattle.regrade_laws.specs.Counts.{dropped, dropped_count, filled, filled_count};
ghost use Rattle.regrade_laws.specs.Regraded.{regraded, way_of};
ghost use Rattle.regrade_laws.specs.Sizes.{HasFewThroughout, most_among};

/// A message that fits its schema comes back from a later version as it was.
pub fn up_and_back()
    ensures { (from to : WireSchema) → differ from to ≡ None → IsPlaced from → from.version < to.version
        → (m n : Msg) → Fits from m → regraded from to m ≡ Ok n → regraded to from n ≡ Ok m }
{}

/// The same between two schemas of one version.
pub fn there_and_back()
    ensures { (from to : WireSchema) → differ from to ≡ None → IsChecked from → IsChecked to → from.version ≡ to.version
        → (m n : Msg) → Fits from m → regraded from to m ≡ Ok n → regraded to from n ≡ Ok m }
{}

/// A later message, rewritten in an earlier version, is what that version knows of it, apart from the version number.
pub fn down_is_projected()
    ensures { (from to : WireSchema) → differ to from ≡ None → IsPlaced from → to.version < from.version
        → (m p : Msg) (body : List ℕ) → Lays from m body → to.version < m.version → projected to from m ≡ Some p
        → regraded from to m ≡ Ok (record { template = p.template; version = to.version; block = p.block }) }
{}

/// In a block, at most as many parts are filled as the levels of all its blocks have, and at most as many are dropped.
pub fn counts_are_within()
    ensures filled { (level : Level) (block : Block) → HasFewThroughout level → filled_count level block ≤ most_among (count_in level block) }
    ensures dropped { (version : ℕ) (level : Level) (block : Block) → HasFewThroughout level
        → dropped_count version level block ≤ most_among (count_in level block) }
{}

/// A message has no more entries in another version of its schema than it had before.
pub fn entries_are_no_more()
    ensures up { (from to : WireSchema) → differ from to ≡ None → (i : ℕ) (level : Level) → slice_get from.messages i ≡ Some level
        → (m : ℕ × Level) × (message_named 0 (out-Level level).id to.messages ≡ Some m)
        × ((block : Block) → count_in m.1 (lifted_block from.version m.1 block) ≤ count_in level block) }
    ensures down { (from to : WireSchema) → differ to from ≡ None → (i : ℕ) (level : Level) → slice_get to.messages i ≡ Some level
        → (m : ℕ × Level) × (message_named 0 (out-Level level).id from.messages ≡ Some m)
        × ((block : Block) → count_in level (projected_block to.version m.1 block) ≤ count_in m.1 block) }
{}

/// The counts of a message that lies in a body are at most the number of parts of a message with as many entries as the
/// body has bytes.
pub fn counts_fit()
    ensures dropped { (from to : WireSchema) (way : Way) → way_of from to ≡ Ok way → IsChecked from → IsChecked to
        → (m : Msg) (body : List ℕ) → Lays from m body → dropped from to m ≤ most_among (length body) }
    ensures filled { (from to : WireSchema) (way : Way) → way_of from to ≡ Ok way → IsChecked from → IsChecked to
        → (m : Msg) (body : List ℕ) → Lays from m body → filled from to m ≤ most_among (length body) }
{}
