//! The definitions, computed on a worked schema.

ghost use Rattle.std.specs.Prelude.{◌≡◌, Some, None, codes};
ghost use Rattle.layout_tables.specs.Rows.{worked};
ghost use Rattle.layout_names.specs.Names.{template_named, field_named, group_named, data_named};

/// Messages are counted from 0, and so are the fields, the groups and the data of a level, each separately.
pub fn parts_are_found_by_their_names()
    ensures message { template_named (codes "Ping") worked ≡ Some 1 }
    ensures field { field_named (codes "price") worked 0 ≡ Some 2 }
    ensures group { group_named (codes "fees") worked 0 ≡ Some 1 }
    ensures part { data_named (codes "memo") worked 0 ≡ Some 0 }
{}

/// The parts of a group's entries are those of its own level.
pub fn parts_are_found_at_their_level()
    ensures inside { field_named (codes "price") worked 2 ≡ Some 0 }
    ensures around { field_named (codes "side") worked 2 ≡ None }
{}

/// No field has the name of a group, a name is found as a whole, and a level that doesn't exist has no parts.
pub fn nothing_else_is_found()
    ensures group { field_named (codes "legs") worked 0 ≡ None }
    ensures front { field_named (codes "pric") worked 0 ≡ None }
    ensures level { field_named (codes "price") worked 9 ≡ None }
{}
