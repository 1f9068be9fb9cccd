ghost use Rattle.std.specs.Prelude.{◌≡◌, map, IfOk};
ghost use Rattle.plan_rows.specs.Found.{group_id, HasIds};

use id_tables::IdTable;
use lists::{List, NoMem};
use sbe_types::{DataField, Field, Group, Level};
use std::alloc::Global;

/// The fields, data and groups of a level, found by id.
#[derive(Drop)]
pub struct LevelIds {
    pub fields: IdTable,
    pub parts: IdTable,
    pub groups: IdTable,
}

impl LevelIds {
    /// Creates the tables of a level.
    ///
    /// # Errors
    ///
    /// If memory runs out.
    pub fn new(alloc: Global, level: &Level) -> Result<LevelIds, NoMem>
        ensures { IfOk result (HasIds level.now) }
    {
        let fields = IdTable::new(alloc, field_ids(alloc, level.fields.as_slice())?)?;
        let parts = IdTable::new(alloc, data_ids(alloc, level.parts.as_slice())?)?;
        let groups = IdTable::new(alloc, group_ids(alloc, level.groups.as_slice())?)?;
        Ok(LevelIds {
            fields,
            parts,
            groups,
        })
    }
}

fn field_ids(alloc: Global, fields: &[Field]) -> Result<List<u32>, NoMem>
    ensures { IfOk result (λ ids. ids ≡ map (λ f. f.id) fields.now) }
{
    let mut ids = List::new(alloc);
    for field in fields {
        ids.push(field.id)?;
    }
    Ok(ids)
}

fn data_ids(alloc: Global, parts: &[DataField]) -> Result<List<u32>, NoMem>
    ensures { IfOk result (λ ids. ids ≡ map (λ d. d.id) parts.now) }
{
    let mut ids = List::new(alloc);
    for part in parts {
        ids.push(part.id)?;
    }
    Ok(ids)
}

fn group_ids(alloc: Global, groups: &[Group]) -> Result<List<u32>, NoMem>
    ensures { IfOk result (λ ids. ids ≡ map group_id groups.now) }
{
    let mut ids = List::new(alloc);
    for group in groups {
        ids.push(group.level.id)?;
    }
    Ok(ids)
}
