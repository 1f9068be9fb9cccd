//! The definitions, computed on worked schemas and bodies.

ghost use Rattle.std.specs.Prelude.{◌≡◌, [], ◌∷◌};
ghost use Rattle.sbe_wire.specs.Rows.Schemas.{schema7};
ghost use Rattle.vectors.specs.Messages.{generated};
ghost use Rattle.vectors.specs.Altered.{altered};
ghost use Rattle.vectors.specs.Rows.{big_by_last, grp_by_two, nul_by_one, ping_by_one};

/// Two numbers.
pub fn numbers_are_drawn()
    ensures { generated schema7 1 0 ≡ ping_by_one }
{}

/// An optional number that is null.
pub fn null_is_drawn()
    ensures { generated schema7 1 1 ≡ nul_by_one }
{}

/// A group of two entries.
pub fn entries_are_drawn()
    ensures { generated schema7 2 3 ≡ grp_by_two }
{}

/// The sum of a seed and an index wraps around to 0.
pub fn seeds_wrap()
    ensures { generated schema7 18446744073709551615 5 ≡ big_by_last }
{}

/// The altered byte is the one at the index modulo the length, and ff becomes 00.
pub fn bytes_are_altered()
    ensures last { altered (1 ∷ 2 ∷ 255 ∷ []) 2 ≡ 1 ∷ 2 ∷ 0 ∷ [] }
    ensures around { altered (7 ∷ 8 ∷ []) 3 ≡ 7 ∷ 9 ∷ [] }
{}
