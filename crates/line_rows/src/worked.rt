//! The definition of a line's contents, computed on small lines.

ghost use Rattle.std.specs.Prelude.{◌≡◌, codes, Ok, Err};
ghost use Rattle.line_values.specs.declared.refusals.JCode.TheVariants as code;
ghost use Rattle.line_values.specs.Refusals.{refusal};
ghost use Rattle.line_reading.specs.Lines.{tree_of};
ghost use Rattle.line_rows.specs.Rows.{demo, kinds, word_line, lone_line, pong_line, ping_line, ping_message, letter_line, twice_line, twice_message, nest_line, nest_message, kinds_line, kinds_message, other_line, other_message, list_line, untold_line, number_line, version_line, key_line, keys_line, entry_line, groups_line, missing_line, null_line, octets_line, choice_line, choices_line, odd_line, constant_line, inner_line, place_line};

/// A bare word isn't a JSON text.
pub fn is_no_value()
    ensures { tree_of demo word_line ≡ Err (refusal code.NotJson (codes "")) }
{}

/// A required field is missing.
pub fn misses_a_field()
    ensures { tree_of demo lone_line ≡ Err (refusal code.Shape (codes "a")) }
{}

/// A template that the schema doesn't have is the place of its own refusal.
pub fn has_no_such_template()
    ensures { tree_of demo pong_line ≡ Err (refusal code.UnknownName (codes "Pong")) }
{}

/// A missing optional field is null.
pub fn leaves_out_a_null()
    ensures { tree_of demo ping_line ≡ Ok ping_message }
{}

/// A string instead of a number.
pub fn has_a_letter_for_a_number()
    ensures { tree_of demo letter_line ≡ Err (refusal code.Kind (codes "a")) }
{}

/// A group of two entries, whose other objects are missing.
pub fn has_two_entries()
    ensures { tree_of demo twice_line ≡ Ok twice_message }
{}

/// A group in a group, and data.
pub fn nests_groups()
    ensures { tree_of demo nest_line ≡ Ok nest_message }
{}

/// Values of each kind, as they are written.
pub fn has_each_kind()
    ensures { tree_of kinds kinds_line ≡ Ok kinds_message }
{}

/// Values of each kind in the other allowed forms, or missing.
pub fn has_each_kind_otherwise()
    ensures { tree_of kinds other_line ≡ Ok other_message }
{}

/// An array isn't a message.
pub fn is_no_object()
    ensures { tree_of demo list_line ≡ Err (refusal code.Shape (codes "")) }
{}

/// The template is missing.
pub fn has_no_template()
    ensures { tree_of demo untold_line ≡ Err (refusal code.Shape (codes "template")) }
{}

/// The template is a number.
pub fn has_a_number_for_a_template()
    ensures { tree_of demo number_line ≡ Err (refusal code.Kind (codes "template")) }
{}

/// Another version, which is reported before an unknown key.
pub fn has_another_version()
    ensures { tree_of demo version_line ≡ Err (refusal code.Kind (codes "version")) }
{}

/// Of two unknown keys the least one is reported, before what is wrong in the fields.
pub fn has_two_unknown_keys()
    ensures { tree_of demo keys_line ≡ Err (refusal code.UnknownName (codes "B")) }
{}

/// An unknown key of an entry, with the entry's path.
pub fn has_an_unknown_key_in_an_entry()
    ensures { tree_of demo key_line ≡ Err (refusal code.UnknownName (codes "g[1].zz")) }
{}

/// An entry that isn't an object.
pub fn has_a_number_for_an_entry()
    ensures { tree_of demo entry_line ≡ Err (refusal code.Kind (codes "g[0]")) }
{}

/// Fields are checked before groups.
pub fn misses_a_field_before_its_groups()
    ensures { tree_of demo groups_line ≡ Err (refusal code.Shape (codes "legs[0].q")) }
{}

/// Groups that aren't an object, inside an entry.
pub fn has_a_list_for_groups()
    ensures { tree_of demo missing_line ≡ Err (refusal code.Kind (codes "legs[0].groups")) }
{}

/// A null where none is allowed.
pub fn has_a_null_for_a_number()
    ensures { tree_of demo null_line ≡ Err (refusal code.Kind (codes "a")) }
{}

/// A null among octets.
pub fn has_a_null_among_octets()
    ensures { tree_of kinds octets_line ≡ Err (refusal code.Kind (codes "o[1]")) }
{}

/// A choice that isn't listed.
pub fn has_an_unknown_choice()
    ensures { tree_of kinds choice_line ≡ Err (refusal code.UnknownName (codes "s")) }
{}

/// A choice named twice.
pub fn has_a_choice_twice()
    ensures { tree_of kinds choices_line ≡ Err (refusal code.Kind (codes "s")) }
{}

/// An odd number of hex digits.
pub fn has_a_lone_hex_digit()
    ensures { tree_of kinds odd_line ≡ Err (refusal code.Kind (codes "t")) }
{}

/// A constant that differs.
pub fn has_another_constant()
    ensures { tree_of kinds constant_line ≡ Err (refusal code.Kind (codes "l")) }
{}

/// A composite's unknown key.
pub fn has_an_unknown_member()
    ensures { tree_of kinds inner_line ≡ Err (refusal code.UnknownName (codes "px.foo")) }
{}

/// A required member of a composite is missing.
pub fn misses_a_member()
    ensures { tree_of kinds place_line ≡ Err (refusal code.Shape (codes "px.in.x")) }
{}
