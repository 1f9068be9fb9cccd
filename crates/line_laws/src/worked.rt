//! The definitions of read data, computed on a small line.

ghost use Rattle.std.specs.Prelude.{◌≡◌, Some};
ghost use Rattle.serde_json.specs.Read.{read};
ghost use Rattle.serde_json.specs.Written.{compact_text};
ghost use Rattle.line_laws.specs.AsRead.{as_read};
ghost use Rattle.line_laws.specs.Rows.{printed, in_order, line, twice, once};

/// The text of an object has its members in the order in which they were listed.
pub fn has_members_as_listed()
    ensures { compact_text printed ≡ line }
{}

/// The same object is read with its members in the order of their keys.
pub fn has_members_in_order()
    ensures { as_read printed ≡ in_order }
{}

/// The text itself is read like that.
pub fn is_read_in_order()
    ensures { read line ≡ Some in_order }
{}

/// Of two members with the same key the later one is read.
pub fn has_a_key_once()
    ensures { as_read twice ≡ once }
{}
