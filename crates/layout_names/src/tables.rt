ghost use Rattle.std.specs.Prelude.{◌≡◌, ◌<◌, length, IfOk, IfSome};
ghost use Rattle.sbe_types.specs.declared.schema.Level.{out-Level};
ghost use Rattle.sbe_types.specs.declared.schema.WireSchema.{WireSchema};
ghost use Rattle.schema_facts.specs.Levels.{all_nodes, fields_at, groups_at, parts_at};
ghost use Rattle.layout_names.specs.Names.{level_names, field_names, group_names, data_names, template_named, field_named, group_named, data_named};
ghost use Rattle.layout_names.specs.Tables.{part_names, parts_names, AreNames};

use crate::name_lists::{data_names, field_names, group_names, level_names};
use id_tables::NameTable;
use layout_tables::Layout;
use lists::NoMem;
use sbe_types::{DataField, Field, Group, Level};
use std::alloc::Global;

/// The names of a level's parts.
#[derive(Drop)]
pub(crate) struct LevelNames {
    pub(crate) fields: NameTable,
    pub(crate) groups: NameTable,
    pub(crate) parts: NameTable,
}

/// The names of a layout: those of its messages, and of the parts of each level.
///
/// It is made once, and allocates all its memory then. The time of a look-up depends on the length of the name, and not
/// on the number of parts. Names are compared byte by byte.
#[derive(Drop)]
pub struct LayoutNames {
    pub(crate) templates: NameTable,
    pub(crate) levels: Vec<LevelNames>,
}

impl LayoutNames {
    /// The names of a layout.
    pub fn new(alloc: Global, layout: &Layout) -> Result<LayoutNames, NoMem>
        ensures { IfOk result (λ names. AreNames layout.now names) }
    {
        let templates = template_table(alloc, layout.schema().messages.as_slice())?;
        let levels = levels_of(alloc, layout)?;
        Ok(LayoutNames { templates, levels })
    }

    /// The number of the first message with this name, or `None` exactly if no message has it.
    pub fn template(&self, name: &[u8]) -> Option<usize>
        ensures is { (schema : WireSchema) → AreNames schema self.now → result ≡ template_named name.now schema }
        ensures within { (schema : WireSchema) → AreNames schema self.now → IfSome result (λ t. t < length schema.messages) }
    {
        self.templates.place(name)
    }

    /// The number of a level's first field with this name, or `None` exactly if none of its fields has it.
    pub fn field(&self, level: usize, name: &[u8]) -> Option<usize>
        ensures is { (schema : WireSchema) → AreNames schema self.now → result ≡ field_named name.now schema level }
        ensures within { (schema : WireSchema) → AreNames schema self.now → IfSome result (λ i. i < length (fields_at schema level)) }
    {
        match self.levels.get(level) {
            Some(names) => names.fields.place(name),
            None => None,
        }
    }

    /// The number of a level's first group with this name, or `None` exactly if none of its groups has it.
    pub fn group(&self, level: usize, name: &[u8]) -> Option<usize>
        ensures is { (schema : WireSchema) → AreNames schema self.now → result ≡ group_named name.now schema level }
        ensures within { (schema : WireSchema) → AreNames schema self.now → IfSome result (λ i. i < length (groups_at schema level)) }
    {
        match self.levels.get(level) {
            Some(names) => names.groups.place(name),
            None => None,
        }
    }

    /// The number of a level's first data part with this name, or `None` exactly if none of its data parts has it.
    pub fn data(&self, level: usize, name: &[u8]) -> Option<usize>
        ensures is { (schema : WireSchema) → AreNames schema self.now → result ≡ data_named name.now schema level }
        ensures within { (schema : WireSchema) → AreNames schema self.now → IfSome result (λ i. i < length (parts_at schema level)) }
    {
        match self.levels.get(level) {
            Some(names) => names.parts.place(name),
            None => None,
        }
    }
}

/// The names of messages.
fn template_table(alloc: Global, messages: &[Level]) -> Result<NameTable, NoMem>
    ensures { IfOk result (λ table. table ≡ level_names messages.now) }
{
    let names = level_names(alloc, messages)?;
    NameTable::new(alloc, names)
}

/// The names of the parts of each level.
fn levels_of(alloc: Global, layout: &Layout) -> Result<Vec<LevelNames>, NoMem>
    ensures { IfOk result (λ levels. levels.items ≡ parts_names (all_nodes layout.now)) }
{
    let mut levels = Vec::with_capacity(alloc, layout.levels())?;
    for n in 0..layout.levels() {
        levels.push(names_of(alloc, layout.level(n))?)?;
    }
    Ok(levels)
}

/// The names of a level's parts.
fn names_of(alloc: Global, level: &Level) -> Result<LevelNames, NoMem>
    ensures { IfOk result (λ names. names ≡ part_names level.now) }
{
    let fields = field_table(alloc, level.fields.as_slice())?;
    let groups = group_table(alloc, level.groups.as_slice())?;
    let parts = data_table(alloc, level.parts.as_slice())?;
    Ok(LevelNames {
        fields,
        groups,
        parts,
    })
}

/// The names of fields.
fn field_table(alloc: Global, fields: &[Field]) -> Result<NameTable, NoMem>
    ensures { IfOk result (λ table. table ≡ field_names fields.now) }
{
    let names = field_names(alloc, fields)?;
    NameTable::new(alloc, names)
}

/// The names of groups.
fn group_table(alloc: Global, groups: &[Group]) -> Result<NameTable, NoMem>
    ensures { IfOk result (λ table. table ≡ group_names groups.now) }
{
    let names = group_names(alloc, groups)?;
    NameTable::new(alloc, names)
}

/// The names of data parts.
fn data_table(alloc: Global, parts: &[DataField]) -> Result<NameTable, NoMem>
    ensures { IfOk result (λ table. table ≡ data_names parts.now) }
{
    let names = data_names(alloc, parts)?;
    NameTable::new(alloc, names)
}
