ghost use Rattle.std.specs.Prelude.{◌≡◌, ◌<◌, map, length, slice_get, Some, IfOk};
ghost use Rattle.map_members.specs.Lent.{lent_members};
ghost use Rattle.map_rules.specs.Rules.{is_named, is_datatype, is_type, tables_of, length_or_zero};

use crate::datatypes::is_standard;
use id_tables::{IdTable, NameTable};
use lists::{List, NoMem, Text};
use map_types::{CodeSetEl, DatatypeEl, FieldEl};
use std::alloc::Global;

/// The names of declared datatypes and of code sets, and the lengthIds of fields, each list in its order.
#[derive(Drop)]
pub struct Tables {
    pub datatypes: NameTable,
    pub code_sets: NameTable,
    /// For each field its lengthId, or 0, which isn't an id.
    pub lengths: IdTable,
}

impl Tables {
    /// Builds the tables of these members.
    pub fn new(
        alloc: Global,
        datatypes: &[&DatatypeEl],
        code_sets: &[&CodeSetEl],
        fields: &[&FieldEl],
    ) -> Result<Tables, NoMem>
        ensures { IfOk result (λ tables. tables ≡ tables_of (lent_members datatypes.now) (lent_members code_sets.now) (lent_members fields.now)) }
    {
        let datatypes = datatype_table(alloc, datatypes)?;
        let code_sets = code_set_table(alloc, code_sets)?;
        let lengths = length_table(alloc, fields)?;
        Ok(Tables {
            datatypes,
            code_sets,
            lengths,
        })
    }

    /// Whether a name is that of a datatype.
    pub fn is_datatype(&self, name: &[u8]) -> bool
        ensures { result ≡ is_datatype self.now name.now }
    {
        is_standard(name) || self.datatypes.place(name).is_some()
    }

    /// Whether a name is that of a datatype or a code set.
    pub fn is_type(&self, name: &[u8]) -> bool
        ensures { result ≡ is_type self.now name.now }
    {
        self.is_datatype(name) || self.code_sets.place(name).is_some()
    }
}

fn datatype_table(alloc: Global, datatypes: &[&DatatypeEl]) -> Result<NameTable, NoMem>
    ensures { IfOk result (λ table. table ≡ map (λ d. d.name) (lent_members datatypes.now)) }
{
    NameTable::new(alloc, datatype_names(alloc, datatypes)?)
}

fn code_set_table(alloc: Global, code_sets: &[&CodeSetEl]) -> Result<NameTable, NoMem>
    ensures { IfOk result (λ table. table ≡ map (λ s. s.name) (lent_members code_sets.now)) }
{
    NameTable::new(alloc, code_set_names(alloc, code_sets)?)
}

fn length_table(alloc: Global, fields: &[&FieldEl]) -> Result<IdTable, NoMem>
    ensures { IfOk result (λ table. table ≡ map (λ f. length_or_zero f.length_id) (lent_members fields.now)) }
{
    IdTable::new(alloc, length_ids(alloc, fields)?)
}

fn datatype_names(alloc: Global, datatypes: &[&DatatypeEl]) -> Result<List<Text>, NoMem>
    ensures { IfOk result (λ names. names ≡ map (λ d. d.name) (lent_members datatypes.now)) }
{
    let mut names = List::new(alloc);
    for datatype in datatypes {
        names.push(List::from_slice(alloc, datatype.name.as_slice())?)?;
    }
    Ok(names)
}

fn code_set_names(alloc: Global, code_sets: &[&CodeSetEl]) -> Result<List<Text>, NoMem>
    ensures { IfOk result (λ names. names ≡ map (λ s. s.name) (lent_members code_sets.now)) }
{
    let mut names = List::new(alloc);
    for code_set in code_sets {
        names.push(List::from_slice(alloc, code_set.name.as_slice())?)?;
    }
    Ok(names)
}

fn length_ids(alloc: Global, fields: &[&FieldEl]) -> Result<List<u32>, NoMem>
    ensures { IfOk result (λ ids. ids ≡ map (λ f. length_or_zero f.length_id) (lent_members fields.now)) }
{
    let mut ids = List::new(alloc);
    for field in fields {
        ids.push(length_or_zero(field.length_id))?;
    }
    Ok(ids)
}

fn length_or_zero(length_id: Option<u32>) -> u32
    ensures { result ≡ length_or_zero length_id }
{
    match length_id {
        None => 0,
        Some(id) => id,
    }
}
