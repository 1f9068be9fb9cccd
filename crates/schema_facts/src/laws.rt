//! Laws of the definitions, stated as functions without a body.

ghost use Rattle.std.specs.Prelude.{◌≡◌, ◌≤◌, ℕ, List};
ghost use Rattle.sbe_types.specs.Places.{fields_end};
ghost use Rattle.sbe_types.specs.declared.schema.WireSchema.{WireSchema};
ghost use Rattle.sbe_types.specs.declared.tree.PartItem.{PartItem};
ghost use Rattle.sbe_wire.specs.Placed.{IsPlaced};
ghost use Rattle.schema_rules.specs.Resolved.{Within, list_fields};
ghost use Rattle.schema_facts.specs.Ends.{parts_end};
ghost use Rattle.schema_facts.specs.IsChecked.{HasMessages, HoldsNumbers, LevelsHaveNames, HasCounters, AreKindsInOrder, LevelsHaveSinces, LevelsHaveBlocks, EntriesTakeBytes, DataHaveLengths, LevelsHaveFewParts, GroupsAreShallow, IsChecked, OfChecked, MessagesTakeBytes};
ghost use Rattle.schema_facts.specs.Measured.{IsMeasured};

/// If the facts of types say that a level's fields end at a number that fits four bytes, the fields of the checked
/// schema end there.
pub fn fields_end_as_facts_say()
    ensures { (within : Within) (ps : List PartItem) → parts_end within.types 0 ps ≤ 4294967295
        → parts_end within.types 0 ps ≡ fields_end 0 (list_fields within ps) }
{}

/// The checker guarantees every fact that the layers above may rely on, for each well-formed tree.
pub fn checked_schemas_are_checked()
    ensures { OfChecked IsChecked }
{}

/// No part of a checked schema begins before the end of the previous one, and a message is found by its id.
pub fn checked_parts_are_placed()
    ensures { OfChecked IsPlaced }
{}

/// The header and the dimensions of a checked schema have their numbers, and no part ends after the largest place.
pub fn checked_schemas_are_measured()
    ensures { OfChecked IsMeasured }
{}

/// No two messages of a checked schema have the same name, or the same id.
pub fn checked_messages_differ()
    ensures { OfChecked HasMessages }
{}

/// The header of a checked schema has room for its id and version and for the ids of its messages.
pub fn checked_headers_hold_numbers()
    ensures { OfChecked HoldsNumbers }
{}

/// The names in a checked schema are well-formed, and no two parts of a level have the same one.
pub fn checked_levels_have_names()
    ensures { OfChecked LevelsHaveNames }
{}

/// The kinds of a checked schema are in order.
pub fn checked_kinds_are_in_order()
    ensures { OfChecked AreKindsInOrder }
{}

/// The header of a checked schema consists of its four numbers and each dimension of its two, and of nothing else.
pub fn checked_counters_are_exact()
    ensures { OfChecked HasCounters }
{}

/// Within each level of a checked schema the sinces of fields, of groups and of data never decrease.
pub fn checked_levels_have_sinces()
    ensures { OfChecked LevelsHaveSinces }
{}

/// The fields of each level of a checked schema end within its block, whose length fits its member.
pub fn checked_levels_have_blocks()
    ensures { OfChecked LevelsHaveBlocks }
{}

/// Each entry of a checked schema takes at least one byte, at each version that has its group.
pub fn checked_entries_take_bytes()
    ensures { OfChecked EntriesTakeBytes }
{}

/// Each data part of a checked schema has a length number.
pub fn checked_data_have_lengths()
    ensures { OfChecked DataHaveLengths }
{}

/// No level of a checked schema has more parts than the limit.
pub fn checked_levels_have_few_parts()
    ensures { OfChecked LevelsHaveFewParts }
{}

/// Groups of a checked schema are nested at most six deep.
pub fn checked_groups_are_shallow()
    ensures { OfChecked GroupsAreShallow }
{}

/// If each entry takes a byte, so do the entries of each message, at each version and in all groups.
pub fn messages_take_bytes()
    ensures { (schema : WireSchema) → EntriesTakeBytes schema → MessagesTakeBytes schema }
{}
