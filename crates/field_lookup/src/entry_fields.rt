//! A field of a group's entries, by its names.
ghost use Rattle.std.specs.Prelude.{◌≡◌, ◌<◌, length};
ghost use Rattle.schema_facts.specs.Levels.{groups_at, root_of};
ghost use Rattle.layout_names.specs.Tables.{AreNames};
ghost use Rattle.field_lookup.specs.EntryFields.{entry_field_named, field_of_group, field_of_template};

use layout_names::LayoutNames;
use layout_tables::Layout;

/// A field of a group's entries by its names: those of the message, of the group in its root, and its own.
#[derive(Clone, Copy)]
pub struct EntryNames<'a> {
    /// The name of the message.
    pub template: &'a [u8],
    /// The name of the group.
    pub group: &'a [u8],
    /// The name of the field.
    pub field: &'a [u8],
}

/// The same field by its numbers. Each is counted from 0, in the schema's order.
#[repr(C)]
#[derive(Clone, Copy)]
pub struct EntryField {
    /// The message's template.
    pub template: usize,
    /// The group in its root.
    pub group: usize,
    /// The field in the group's entries.
    pub field: usize,
}

/// Looks up a field of a group's entries by its names. Requires the names of the layout.
pub fn find_field(layout: &Layout, names: &LayoutNames, path: &EntryNames<'_>) -> Option<EntryField>
    requires { AreNames layout.now names.now }
    ensures { result ≡ entry_field_named path.now layout.now }
{
    match names.template(path.template) {
        Some(template) => field_of_template(layout, names, path, template),
        None => None,
    }
}

/// Looks up the group in the root of a message, and then the field. Requires a template in range.
fn field_of_template(
    layout: &Layout,
    names: &LayoutNames,
    path: &EntryNames<'_>,
    template: usize,
) -> Option<EntryField>
    requires names { AreNames layout.now names.now }
    requires template { template < length layout.now.messages }
    ensures { result ≡ field_of_template path.now layout.now template }
{
    match names.group(layout.root(template), path.group) {
        Some(group) => field_of_group(layout, names, path, template, group),
        None => None,
    }
}

/// Looks up the field in the entries of a group. Requires both in range.
#[tactic(auto, using(crate::proofs::EntryFieldLemmas::level_within))]
fn field_of_group(
    layout: &Layout,
    names: &LayoutNames,
    path: &EntryNames<'_>,
    template: usize,
    group: usize,
) -> Option<EntryField>
    requires names { AreNames layout.now names.now }
    requires template { template < length layout.now.messages }
    requires group { group < length (groups_at layout.now (root_of layout.now template)) }
    ensures { result ≡ field_of_group path.now layout.now template group }
{
    let level = layout.group(layout.root(template), group);
    match names.field(level, path.field) {
        Some(field) => Some(EntryField {
            template,
            group,
            field,
        }),
        None => None,
    }
}
