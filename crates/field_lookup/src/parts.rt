//! Parts of a schema by their names.
ghost use Rattle.std.specs.Prelude.{◌≡◌};
ghost use Rattle.layout_names.specs.Tables.{AreNames};
ghost use Rattle.field_lookup.specs.Parts.{group_part, level_part, message_part, part_named};

use layout_names::LayoutNames;
use layout_tables::Layout;

/// What sort of part is looked for.
#[derive(Clone, Copy, Debug, PartialEq, Eq)]
pub enum Sort {
    /// A message of the schema.
    Message,
    /// A field of a level.
    Field,
    /// A group of a level.
    Group,
    /// A data part of a level.
    Data,
}

/// A part of a schema that was found by its name.
#[repr(C)]
#[derive(Clone, Copy)]
pub struct Part {
    /// Its number among those of its sort, counted from 0 in the schema's order.
    pub number: usize,
    /// The level of a message's root, or of a group's entries; of a field and of data the level that has it.
    pub level: usize,
}

/// Looks up a message, or a part of a level, by its name. The level doesn't matter for a message. Requires the names of
/// the layout.
pub fn find_part(
    layout: &Layout,
    names: &LayoutNames,
    sort: Sort,
    level: usize,
    name: &[u8],
) -> Option<Part>
    requires { AreNames layout.now names.now }
    ensures { result ≡ part_named sort level name.now layout.now }
{
    match sort {
        Sort::Message => message_part(layout, names, name),
        Sort::Field => level_part(level, names.field(level, name)),
        Sort::Group => group_part(layout, names, level, name),
        Sort::Data => level_part(level, names.data(level, name)),
    }
}

/// The message of this name. Requires the names of the layout.
fn message_part(layout: &Layout, names: &LayoutNames, name: &[u8]) -> Option<Part>
    requires { AreNames layout.now names.now }
    ensures { result ≡ message_part name.now layout.now }
{
    match names.template(name) {
        Some(number) => Some(Part {
            number,
            level: layout.root(number),
        }),
        None => None,
    }
}

/// The group of this name in a level. Requires the names of the layout.
fn group_part(layout: &Layout, names: &LayoutNames, level: usize, name: &[u8]) -> Option<Part>
    requires { AreNames layout.now names.now }
    ensures { result ≡ group_part level name.now layout.now }
{
    if level >= layout.levels() {
        return None;
    }
    match names.group(level, name) {
        Some(number) => Some(Part {
            number,
            level: layout.group(level, number),
        }),
        None => None,
    }
}

/// A part that is in this level.
fn level_part(level: usize, number: Option<usize>) -> Option<Part>
    ensures { result ≡ level_part level number }
{
    match number {
        Some(number) => Some(Part { number, level }),
        None => None,
    }
}
