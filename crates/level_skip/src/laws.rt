//! Laws of skipping an entry.

ghost use Rattle.std.specs.Prelude.{◌≡◌, ◌++◌, ◌+◌, ℕ, List, Ok, Some, length};
ghost use Rattle.sbe_types.specs.declared.message.Block.{Block};
ghost use Rattle.sbe_types.specs.declared.schema.Level.{Level};
ghost use Rattle.sbe_wire.specs.Versions.{form_of};
ghost use Rattle.sbe_wire.specs.declared.mode.Mode.{Mode};
ghost use Rattle.sbe_wire.specs.Lays.{EntryLays, TailLays};
ghost use Rattle.sbe_wire.specs.Placed.{IsPlacedLevel};
ghost use Rattle.level_skip.specs.Passing.{level_passed};
ghost use Rattle.level_skip.specs.Behind.{offset_after};

/// If an entry of a level lies at the front of the bytes, exactly its bytes are skipped, whatever follows them.
pub fn entry_that_lies_is_passed()
    ensures { (mode : Mode) (level : Level) (k : ℕ) (entry : Block) (front rest : List ℕ) → IsPlacedLevel level
        → EntryLays (λ e b. TailLays mode level e b) (form_of mode level) k entry front
        → level_passed mode.order mode.version level k (front ++ rest) ≡ Ok (tt, rest) }
{}

/// If an entry of a level lies in the bytes, the offset after it is that of the byte after its last one, wherever it
/// begins.
pub fn entry_that_lies_ends_after_its_bytes()
    ensures { (mode : Mode) (level : Level) (k : ℕ) (entry : Block) (before front rest : List ℕ) → IsPlacedLevel level
        → EntryLays (λ e b. TailLays mode level e b) (form_of mode level) k entry front
        → offset_after (level_passed mode.order mode.version level k) (before ++ (front ++ rest)) (length before) ≡ Some (length before + length front) }
{}
