// The names of parts, each copied once.
ghost use Rattle.std.specs.Prelude.{◌≡◌, IfOk};
ghost use Rattle.layout_names.specs.Names.{level_names, field_names, group_names, data_names};

use lists::{List, NoMem, Text};
use sbe_types::{DataField, Field, Group, Level};
use std::alloc::Global;

/// The names of levels.
pub(crate) fn level_names(alloc: Global, levels: &[Level]) -> Result<List<Text>, NoMem>
    ensures { IfOk result (λ names. names ≡ level_names levels.now) }
{
    let mut names = List::new(alloc);
    for level in levels {
        names.push(List::from_slice(alloc, level.name.as_slice())?)?;
    }
    Ok(names)
}

/// The names of fields.
pub(crate) fn field_names(alloc: Global, fields: &[Field]) -> Result<List<Text>, NoMem>
    ensures { IfOk result (λ names. names ≡ field_names fields.now) }
{
    let mut names = List::new(alloc);
    for field in fields {
        names.push(List::from_slice(alloc, field.name.as_slice())?)?;
    }
    Ok(names)
}

/// The names of groups.
pub(crate) fn group_names(alloc: Global, groups: &[Group]) -> Result<List<Text>, NoMem>
    ensures { IfOk result (λ names. names ≡ group_names groups.now) }
{
    let mut names = List::new(alloc);
    for group in groups {
        names.push(List::from_slice(alloc, group.level.name.as_slice())?)?;
    }
    Ok(names)
}

/// The names of data parts.
pub(crate) fn data_names(alloc: Global, parts: &[DataField]) -> Result<List<Text>, NoMem>
    ensures { IfOk result (λ names. names ≡ data_names parts.now) }
{
    let mut names = List::new(alloc);
    for part in parts {
        names.push(List::from_slice(alloc, part.name.as_slice())?)?;
    }
    Ok(names)
}
