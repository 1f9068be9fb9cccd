//! The definitions, computed on worked bytes.

ghost use Rattle.std.specs.Prelude.{◌≡◌, ◌∷◌, [], Some, None, slice_get};
ghost use Rattle.std.specs.Option.{option_map};
ghost use Rattle.sbe_types.specs.declared.kind.Order.TheVariants.{Little};
ghost use Rattle.sbe_wire.specs.Rows.Bodies.{big_count_body, big_cut_body, event_earlier_body, event_later_body, grp_body, nest_body, one_body};
ghost use Rattle.sbe_wire.specs.Rows.Schemas.{big, event2, grp, nest, one, one_data, schema7};
ghost use Rattle.schema_facts.specs.Levels.{level_at};
ghost use Rattle.level_skip.specs.Passing.{level_passed};
ghost use Rattle.level_skip.specs.Behind.{offset_after};

/// A group with padding in its dimension; a group whose entry has data and a group without entries, which states a
/// block length of 0; the entry alone.
pub fn groups_are_passed()
    ensures padded { offset_after (level_passed Little 0 grp 0) grp_body 8 ≡ Some 17 }
    ensures nested { offset_after (level_passed Little 0 nest 0) nest_body 8 ≡ Some 21 }
    ensures entry { option_map (λ l. offset_after (level_passed Little 0 l 1) nest_body 12) (level_at schema7 6) ≡ Some (Some 21) }
{}

/// A number that is neither in range nor null is skipped; a block shorter than the floor is refused, and one longer
/// than the floor is skipped whole.
pub fn blocks_are_passed_by_their_length()
    ensures unjudged { offset_after (level_passed Little 0 one 1) one_body 8 ≡ Some 9 }
    ensures below { offset_after (level_passed Little 0 one 0) one_body 8 ≡ None }
    ensures above { offset_after (level_passed Little 0 one 3) (255 ∷ 0 ∷ 0 ∷ 0 ∷ []) 0 ≡ Some 3 }
    ensures cut { offset_after (level_passed Little 0 one 5) (255 ∷ 0 ∷ 0 ∷ 0 ∷ []) 0 ≡ None }
{}

/// Entries that extend past the end; a count that is its null; a dimension that is cut off.
pub fn groups_that_do_not_lie_are_not_passed()
    ensures entries { offset_after (level_passed Little 0 big 0) big_cut_body 8 ≡ None }
    ensures count { offset_after (level_passed Little 0 big 0) big_count_body 8 ≡ None }
    ensures dimension { offset_after (level_passed Little 0 big 0) (4 ∷ 0 ∷ 0 ∷ []) 0 ≡ None }
    ensures short { offset_after (level_passed Little 0 big 0) (3 ∷ 0 ∷ 1 ∷ 0 ∷ 9 ∷ 9 ∷ 9 ∷ []) 0 ≡ None }
    ensures empty { offset_after (level_passed Little 0 big 0) (3 ∷ 0 ∷ 0 ∷ 0 ∷ []) 0 ≡ Some 4 }
{}

/// Data of one byte; a length that is its null, after which no bytes are read; bytes that are cut off.
pub fn data_are_passed()
    ensures whole { option_map (λ l. offset_after (level_passed Little 0 l 0) (9 ∷ 1 ∷ 0 ∷ 65 ∷ 66 ∷ []) 1) (slice_get one_data.messages 0) ≡ Some (Some 4) }
    ensures length { option_map (λ l. offset_after (level_passed Little 0 l 0) (255 ∷ 255 ∷ []) 0) (slice_get one_data.messages 0) ≡ Some None }
    ensures bytes { option_map (λ l. offset_after (level_passed Little 0 l 0) (3 ∷ 0 ∷ 104 ∷ 105 ∷ []) 0) (slice_get one_data.messages 0) ≡ Some None }
    ensures number { option_map (λ l. offset_after (level_passed Little 0 l 0) (3 ∷ []) 0) (slice_get one_data.messages 0) ≡ Some None }
{}

/// A message of version 2 with its data; the same bytes at version 0, which lacks a field and data; a message of
/// version 0, and its block at version 1, where it is shorter than the floor.
pub fn later_parts_are_not_passed()
    ensures later { option_map (λ l. offset_after (level_passed Little 2 l 4) event_later_body 8) (slice_get event2.messages 0) ≡ Some (Some 15) }
    ensures earlier { option_map (λ l. offset_after (level_passed Little 0 l 4) event_later_body 8) (slice_get event2.messages 0) ≡ Some (Some 12) }
    ensures own { option_map (λ l. offset_after (level_passed Little 0 l 2) event_earlier_body 8) (slice_get event2.messages 0) ≡ Some (Some 10) }
    ensures floor { option_map (λ l. offset_after (level_passed Little 1 l 2) event_earlier_body 8) (slice_get event2.messages 0) ≡ Some None }
{}
