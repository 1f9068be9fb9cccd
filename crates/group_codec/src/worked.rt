//! The definitions, computed on worked bytes.

ghost use Rattle.std.specs.Prelude.{◌≡◌, ◌∷◌, [], Ok, Err};
ghost use Rattle.sbe_types.specs.declared.kind.Order.TheVariants.{Little};
ghost use Rattle.sbe_wire.specs.Rows.Schemas.{size16};
ghost use Rattle.group_codec.specs.declared.dim.DimErr.TheVariants.{Count, Truncated};
ghost use Rattle.group_codec.specs.Dims.{dim_read};

/// Two numbers of two bytes, after a byte; a count that is its null; a dimension that is cut off.
pub fn dimensions_are_read()
    ensures read { dim_read Little size16 (9 ∷ 4 ∷ 0 ∷ 254 ∷ 255 ∷ 7 ∷ []) 1 ≡ Ok (record { block = 4; count = 65534; after = 5 }) }
    ensures null { dim_read Little size16 (4 ∷ 0 ∷ 255 ∷ 255 ∷ []) 0 ≡ Err (Count 65535) }
    ensures cut { dim_read Little size16 (4 ∷ 0 ∷ 254 ∷ []) 0 ≡ Err Truncated }
{}
