//! The definition of a line, computed on worked messages.

ghost use Rattle.std.specs.Prelude.{◌≡◌};
ghost use Rattle.tree_json.specs.Lines.{line_of};
ghost use Rattle.tree_json.specs.Rows.{names, names_line, names_message, nested, nested_line, nested_message, older_line, older_message, ping, ping_line, ping_message, texts, texts_line, texts_message, wide, wide_line, wide_message};

/// A number and a null.
pub fn ping_is_shown()
    ensures { line_of ping ping_message ≡ ping_line }
{}

/// The least and greatest numbers of eight bytes, and characters.
pub fn wide_numbers_are_shown()
    ensures { line_of wide wide_message ≡ wide_line }
{}

/// Texts without escapes, with escapes and in hex; arrays with nulls; data, and data that is absent.
pub fn texts_are_shown()
    ensures { line_of texts texts_message ≡ texts_line }
{}

/// Enums and sets by names, or by the number if a value or a bit isn't listed; constants.
pub fn names_are_shown()
    ensures { line_of names names_message ≡ names_line }
{}

/// Composites, nested groups, a group without entries, and absent parts.
pub fn nested_groups_are_shown()
    ensures { line_of nested nested_message ≡ nested_line }
{}

/// A message of an earlier version: a field and a group are absent.
pub fn absent_parts_are_left_out()
    ensures { line_of nested older_message ≡ older_line }
{}
