//! Rows: pairs of schemas and messages, and the results of the definitions for them.

ghost use Rattle.std.specs.Prelude.{◌≡◌, Ok, Err, List, [], ◌∷◌, codes, pos};
ghost use Rattle.sbe_types.specs.declared.path.Step.TheVariants as way;
ghost use Rattle.sbe_types.specs.declared.message.Value.TheVariants as value;
ghost use Rattle.sbe_wire.specs.Rows.Schemas.{schema7, event0, event2, one_data};
ghost use Rattle.version_laws.specs.Rows.{ping_wide, one_data1, event_full_message};
ghost use Rattle.regrade_laws.specs.declared.way.Way.TheVariants.{Up, Down};
ghost use Rattle.regrade_laws.specs.Regraded.{way_of, NoFill, regraded};
ghost use Rattle.regrade_laws.specs.Counts.{dropped, filled};
ghost use Rattle.regrade_laws.specs.Rows.{event_dropped, one_message, one_filled};

/// The earlier version lacks a field and data.
pub fn event_goes_down()
    ensures message { regraded event2 event0 event_full_message ≡ Ok event_dropped }
    ensures dropped { dropped event2 event0 event_full_message ≡ 2 }
    ensures filled { filled event2 event0 event_full_message ≡ 0 }
{}

/// The later version has a required field, for which there is no fill.
pub fn event_has_no_fill()
    ensures { regraded event0 event2 event_dropped ≡ Err (NoFill (way.Part 2 ∷ [])) }
{}

/// A group is filled with no entries, and is dropped on the way back.
pub fn group_is_filled()
    ensures message { regraded one_data one_data1 one_message ≡ Ok one_filled }
    ensures filled { filled one_data one_data1 one_message ≡ 1 }
    ensures back { regraded one_data1 one_data one_filled ≡ Ok one_message }
    ensures dropped { dropped one_data1 one_data one_filled ≡ 1 }
{}

/// The directions, and a pair that has none.
pub fn way_rows()
    ensures up { way_of event0 event2 ≡ Ok Up }
    ensures down { way_of event2 event0 ≡ Ok Down }
    ensures none { way_of schema7 ping_wide ≡ Err (codes "Ping.a") }
{}
