//! Rows: frames that a newer writer sent, and the lines that the older schema prints for them.

ghost use Rattle.std.specs.Prelude.{◌≡◌, true};
ghost use Rattle.sbe_wire.specs.Rows.Schemas.{event0};
ghost use Rattle.dump_lines.specs.Dumped.{dumped};
ghost use Rattle.version_laws.specs.Rows.{event_raw_message, ne0, ne_projected_message};
ghost use Rattle.version_lines.specs.Answered.{alone, shown_line};
ghost use Rattle.version_lines.specs.Rows.{event_frame, event_line, entries_frame, entries_line, misread_line};

/// A message with a value, a field and data that the older schema lacks: it prints the value's number, and leaves the
/// parts out.
pub fn event_is_shown()
    ensures line { shown_line event0 event_raw_message ≡ event_line }
    ensures answer { dumped (alone event0) 0 event_frame ≡ record { line = event_line; is_message = true } }
{}

/// Entries with data that the older schema lacks don't make a plain message: it prints another line than that of what
/// it knows of them.
pub fn entries_are_misread()
    ensures line { shown_line ne0 ne_projected_message ≡ entries_line }
    ensures answer { dumped (alone ne0) 0 entries_frame ≡ record { line = misread_line; is_message = true } }
{}
