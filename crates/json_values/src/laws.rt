//! The law of names.

ghost use Rattle.json_values.specs.Names.{NamesStand};

/// The name of a schema's part needs no escaping in a line.
pub fn names_need_no_escapes()
    ensures { NamesStand }
{}
