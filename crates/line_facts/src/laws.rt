//! A law of the definition of a line's contents.

ghost use Rattle.line_facts.specs.Templates.{LinesHaveTemplates};

/// A message that a line holds has a template of the schema, and the schema's version.
pub fn a_line_has_a_template()
    ensures { LinesHaveTemplates }
{}
