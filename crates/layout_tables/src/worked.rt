//! The definitions, computed on a worked schema.

ghost use Rattle.std.specs.Prelude.{◌≡◌, ◌+◌, Some, None, [], ◌∷◌, codes, slice_get};
ghost use Rattle.sbe_types.specs.Places.{field_place};
ghost use Rattle.sbe_wire.specs.Versions.{floor};
ghost use Rattle.schema_facts.specs.Entries.{entry_least};
ghost use Rattle.schema_facts.specs.Levels.{root_of};
ghost use Rattle.layout_tables.specs.Heads.{header_number};
ghost use Rattle.layout_tables.specs.Names.{names_at};
ghost use Rattle.layout_tables.specs.Parts.{group_number, part_number};
ghost use Rattle.layout_tables.specs.Paths.{path_found, path_text};
ghost use Rattle.layout_tables.specs.Rowed.{newest_of};
ghost use Rattle.layout_tables.specs.Rows.{worked, order, order_fields, legs, level_names, data_names, to_mantissa, to_element, to_note, to_nothing, deep_schema, to_deepest};

/// A message's root precedes the levels of its groups, and a group's level precedes those of its own groups.
pub fn levels_are_numbered_from_the_root_down()
    ensures { level_names ≡ codes "Order" ∷ codes "legs" ∷ codes "subs" ∷ codes "fees" ∷ codes "Ping" ∷ [] }
{}

/// The second message's root follows all levels of the first one, and the second group those of the first one.
pub fn roots_and_groups_follow_those_before_them()
    ensures root { root_of worked 1 ≡ 4 }
    ensures group { group_number worked 0 1 ≡ 3 }
{}

/// The data of a root precedes that of its groups.
pub fn data_is_numbered_level_by_level()
    ensures names { data_names ≡ codes "memo" ∷ codes "note" ∷ [] }
    ensures number { part_number worked 1 0 ≡ 1 }
{}

/// A constant has no offset and takes no bytes, and a stated offset leaves a gap.
pub fn fields_follow_one_another()
    ensures constant { field_place 0 order_fields 1 ≡ None }
    ensures behind_it { field_place 0 order_fields 2 ≡ Some 1 }
    ensures array { field_place 0 order_fields 3 ≡ Some 6 }
    ensures stated { field_place 0 order_fields 4 ≡ Some 16 }
{}

/// The floor of a version reaches the end of its last field, and is the same from the greatest since on.
pub fn floors_grow_by_versions()
    ensures first { floor 0 order_fields ≡ 12 }
    ensures second { floor 1 order_fields ≡ 12 }
    ensures greatest { newest_of order_fields ≡ 2 }
    ensures later { floor 9 order_fields ≡ 18 }
{}

/// An entry takes its floor, the dimensions of its groups and the length numbers of its data, as far as the version has
/// them.
pub fn entries_have_the_least_that_is_alive()
    ensures first { entry_least 0 order ≡ 12 + 4 }
    ensures second { entry_least 1 order ≡ 12 + 4 + 4 }
    ensures last { entry_least 2 order ≡ 18 + 4 + 4 + 2 }
    ensures entry { entry_least 0 legs ≡ 1 + 4 + 2 }
{}

/// Names are joined by dots, and the number of an entry or element is in brackets.
pub fn paths_are_written_out()
    ensures members { path_text worked 0 to_mantissa ≡ codes "legs[2].subs[0].price.mantissa" }
    ensures element { path_text worked 0 to_element ≡ codes "sizes[1]" }
    ensures data { path_text worked 0 to_note ≡ codes "legs[13].note" }
    ensures deepest { path_text deep_schema 0 to_deepest ≡ codes "a[1].b[2].c[3].d[4].e[5].f[6].x.p.q.r.sizes[2]" }
    ensures root { path_text worked 0 [] ≡ [] }
    ensures nothing { path_found worked 0 to_nothing ≡ None }
{}

/// A level's groups are counted after its fields, and then its data.
pub fn parts_are_named_in_order()
    ensures field { slice_get (names_at worked 0) 0 ≡ Some (codes "side") }
    ensures group { slice_get (names_at worked 0) 5 ≡ Some (codes "legs") }
    ensures data { slice_get (names_at worked 0) 7 ≡ Some (codes "memo") }
{}

/// The schema id is read only from a complete header.
pub fn schema_ids_want_a_whole_header()
    ensures whole { header_number worked (codes "schemaId") (18 ∷ 0 ∷ 20 ∷ 0 ∷ 77 ∷ 1 ∷ 2 ∷ 0 ∷ []) ≡ Some 333 }
    ensures short { header_number worked (codes "schemaId") (18 ∷ 0 ∷ 20 ∷ 0 ∷ 77 ∷ 1 ∷ 2 ∷ []) ≡ None }
{}
