//! Laws of the definitions of lines and of their contents.

ghost use Rattle.line_laws.specs.AsRead.{TextIsRead, TextIsUtf8};
ghost use Rattle.line_laws.specs.LinesBack.{BlocksReadBack, LinesDiffer, LinesReadBack};
ghost use Rattle.line_laws.specs.Listed.{ListedIsFound, ListedIsKnown};
ghost use Rattle.line_laws.specs.NamesBack.{EnumsReadBack, SetsReadBack};
ghost use Rattle.line_laws.specs.TextsBack.{TextsReadBack};
ghost use Rattle.line_laws.specs.ValuesBack.{ValuesReadBack};

/// A printed text is read as its data, with the members of each object inserted one by one.
pub fn a_text_is_read()
    ensures { TextIsRead }
{}

/// The text of data whose keys and strings are UTF-8 is UTF-8.
pub fn a_text_is_utf8()
    ensures { TextIsUtf8 }
{}

/// What was listed is found by each name.
pub fn what_is_listed_is_found()
    ensures { ListedIsFound }
{}

/// If each listed name is known, no key is unknown.
pub fn what_is_listed_is_known()
    ensures { ListedIsKnown }
{}

/// The number of an enum reads back, from its name or from the number.
pub fn an_enum_reads_back()
    ensures { EnumsReadBack }
{}

/// A set reads back, from the names of its choices or from its number.
pub fn a_set_reads_back()
    ensures { SetsReadBack }
{}

/// The bytes of a text read back, from a string or from their digits.
pub fn a_text_reads_back()
    ensures { TextsReadBack }
{}

/// A value that fits its kind reads back.
pub fn a_value_reads_back()
    ensures { ValuesReadBack }
{}

/// The contents of the object of a message's root or of an entry read back as its block.
pub fn a_block_reads_back()
    ensures { BlocksReadBack }
{}

/// The line of a message that fits a checked schema reads back as that message.
pub fn a_line_reads_back()
    ensures { LinesReadBack }
{}

/// No two messages that fit a checked schema have the same line.
pub fn one_line_is_one_message()
    ensures { LinesDiffer }
{}
