//! Laws of the definition of a line's contents.

ghost use Rattle.line_values.specs.Ordered.{LeastIsTold, ReadHasOrder};

/// The data read from a JSON text has the keys of each object in order, by bytes.
pub fn keys_are_read_in_order()
    ensures { ReadHasOrder }
{}

/// Of the unknown keys of an object in order the least one is reported.
pub fn the_least_unknown_key_is_reported()
    ensures { LeastIsTold }
{}
