//! The definitions, computed on worked bytes.

ghost use Rattle.std.specs.Prelude.{◌≡◌, ◌∷◌, [], Ok, Err};
ghost use Rattle.sbe_types.specs.declared.kind.Order.TheVariants.{Little};
ghost use Rattle.sbe_wire.specs.Rows.Schemas.{uint16};
ghost use Rattle.var_data.specs.declared.data.DataErr.TheVariants.{Length, Truncated};
ghost use Rattle.var_data.specs.Ranges.{data_range};

/// Two bytes after a byte; a length that is its null; data that are cut off.
pub fn ranges_are_read()
    ensures read { data_range Little uint16 (9 ∷ 2 ∷ 0 ∷ 104 ∷ 105 ∷ []) 1 ≡ Ok (3, 5) }
    ensures null { data_range Little uint16 (255 ∷ 255 ∷ []) 0 ≡ Err (Length 65535) }
    ensures cut { data_range Little uint16 (3 ∷ 0 ∷ 104 ∷ []) 0 ≡ Err (Truncated 5) }
{}
