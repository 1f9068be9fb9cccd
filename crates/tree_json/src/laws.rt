//! Laws of the definition of a line.

ghost use Rattle.tree_json.specs.Names.{CheckedIsPlain, PrintedIsLine};

/// If the names of a schema need no escaping, the printed text of a message is its line.
pub fn printed_text_is_the_line()
    ensures { PrintedIsLine }
{}

/// The names of a checked schema need no escaping in a line.
pub fn checked_names_need_no_escapes()
    ensures { CheckedIsPlain }
{}
